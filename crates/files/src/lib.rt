// What is inside a dump's files, read into its records: CIAInfo, EF.OD's entries, objects, fill; and what is found by going over the records of a book.
#![tactic(auto)]

mod answer;
mod cia;
mod entry;
mod fills;
mod holder;
mod scan;

pub use answer::Entries;
pub use cia::info;
pub use entry::object_directory;
pub use fills::{fill, goes_on};
pub use holder::{Holder, held};
pub use scan::{id_twice, next_name};
