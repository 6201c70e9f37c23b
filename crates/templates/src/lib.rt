// EF.DIR, read into its records: application templates, other elements, fill.
#![tactic(auto)]

mod ddo;
mod file;
mod template;

pub use file::dir;
