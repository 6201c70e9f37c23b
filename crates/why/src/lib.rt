// Item 7 of document 02: why is this link missing?
#![tactic(auto)]

mod answer;
mod stands;
mod whys;

pub use answer::Why;
pub use whys::why;
