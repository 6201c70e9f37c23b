// The parts inside a dump's files, read into their records: components, conditions, whole objects.
#![tactic(auto)]

mod class;
mod common;
mod condition;
mod keep;
mod object;
mod part;
mod path;
mod records;
mod row;
mod types;

pub use class::sequence;
pub use keep::{ended, inner_run, rest_in, sealed, sealed_if};
pub use object::object_at;
pub use part::{Cursor, due, stands};
pub use path::due_path;
pub use records::{put_bare, put_behind, put_fill, put_one, put_two};
pub use row::{components, some_components};
