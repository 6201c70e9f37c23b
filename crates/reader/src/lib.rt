// From a dump to its book: the frames, EF.OD against the files, the files in turn, as the rules have them.
#![tactic(auto)]

mod directories;
mod dump;
mod frame;
mod linear;
mod twelve;

pub use dump::read_into;
