use crate::fault::Fault;

// A refusal: why, and where.
#[derive(Clone, Copy, Debug, PartialEq, Eq)]
pub struct Refusal(pub Fault, pub usize);

// An element: its first tag byte, where its contents start and end.
#[derive(Clone, Copy, Debug, PartialEq, Eq)]
pub struct Header(pub u8, pub usize, pub usize);

// The forms that contents are read in; ENUMERATED is read as INTEGER.
#[derive(Clone, Copy, Debug, PartialEq, Eq)]
pub enum Form {
    Boolean,
    Integer,
    Bits,
    Null,
    Text,
    Time,
    Octets,
}

// What contents say: a number, by sign (true: negative) and magnitude.
// BOOLEAN 0 or 1, a flag word, a text's characters, the bytes of octets; NULL and a time say 0.
// A magnitude that 32 bits do not hold is told as 4,294,967,295, which is out of every bound.
#[derive(Clone, Copy, Debug, PartialEq, Eq)]
pub struct Number(pub bool, pub u32);

// An element that was read: its value and the next place.
#[derive(Clone, Copy, Debug, PartialEq, Eq)]
pub struct Read(pub Number, pub usize);
