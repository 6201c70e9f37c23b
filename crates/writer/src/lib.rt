// From a book to the one dump that may have it, file by file as the rules have them, and safe on any bytes.
#![tactic(auto)]

mod behind;
mod make_entry;
mod make_linear;
mod make_template;
mod render;

pub use render::render_into;
