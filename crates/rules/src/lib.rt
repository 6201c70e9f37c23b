// The rules of document 01: what a dump means, its book and the way back, as definitions with their laws and worked cases; beside them the constant tables.
#![tactic(auto)]

mod book;
mod bytes;
mod class;
mod kept;
mod rows;
mod site;
mod table;
mod types;

pub use book::{byte_at, is_name, is_next, record_end};
pub use bytes::{of_two, same_bytes, word};
pub use class::class_of;
pub use kept::kept_out;
pub use rows::{count_of, rest_of, row_of};
pub use site::Site;
pub use table::{Class, Need, ObjectType, Row, Sequence, Sort};
pub use types::type_of;
