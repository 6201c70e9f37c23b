// Demand 3: the links that a book's objects state, and its fields.
#![tactic(auto)]

mod chains;
mod fields;
mod finding;
mod index;
mod listing;
mod rows;
mod sorts;

pub use fields::{Place, field, field_place};
pub use finding::next_object;
pub use index::{Entry, Index};
pub use listing::list;
pub use rows::put_links;
pub use sorts::{Link, NoLink, is_answering, is_closing, link_of};
