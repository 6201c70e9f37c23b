// The DER element layer of document 01 ("Elements"): what an element is, what its contents say, and the way back.
#![tactic(auto)]

mod answer;
mod bits;
mod boolean;
mod fault;
mod headers;
mod integer;
mod length;
mod record;
mod seals;
mod store;
mod text;
mod time;
mod value;

// Faults and answers.
pub use answer::{Form, Header, Number, Read, Refusal};
pub use fault::{Fault, number_of};
// Elements.
pub use headers::header;
pub use seals::sealed;
pub use value::{element, value_at};
// The way back.
pub use bits::put_flags;
pub use boolean::put_boolean;
pub use integer::put_integer;
pub use length::{put_header, put_length};
pub use store::{put, put_le16, put_part};
// Records of the book.
pub use record::{put_number, put_record};
