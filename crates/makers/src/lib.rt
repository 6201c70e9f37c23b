// The parts inside a dump's files, made from their records: components, conditions, whole objects.
#![tactic(auto)]

mod leaf;
mod made;
mod make_common;
mod make_condition;
mod make_object;
mod make_type;
mod many;

pub use leaf::{
    make_fill, make_keep, make_part, make_rest_in, make_rows, make_sequence, part_element,
};
pub use made::{Made, TooLong, opened, within};
pub use make_object::make_objects;
pub use make_type::make_due_path;
pub use many::make_each;
