// The layouts of document 01 as services: a dump into its book, a book into its dump, and whether a book is one.
#![tactic(auto)]

mod accept;
mod service;

pub use accept::is_book;
pub use service::{read, write};
