ghost use Rattle.std.specs.Prelude.{◌≡◌, decimal, Some};
ghost use Rattle.elements.specs.Faults.{number_of};

use std::fmt;

// Why an input is refused: a name for each reason that documents 01 and 02 give, in the order of their numbers.
#[derive(Clone, Copy, Debug, PartialEq, Eq)]
pub enum Fault {
    // 1: the dump is over 32,768 bytes
    DumpSize,
    // 2: a dump record is broken, missing, of the wrong kind, or a file or path length is not allowed; a record length that runs over
    RecordBroken,
    RecordMissing,
    RecordKind,
    FileLength,
    PathLength,
    RecordOver,
    // 3: bad tag form, cut-off tag, not the component due here, one more than is due
    BadTag,
    CutTag,
    NotDue,
    OneMore,
    // 4: bad length form, cut off, beyond its container
    BadLength,
    CutLength,
    LongLength,
    // 5: the container ends early
    Missing,
    // 61: a BOOLEAN that is not one byte of 00 or FF
    BadBoolean,
    // 62: an INTEGER or ENUMERATED that is empty or too long in form
    BadInteger,
    // 63: a bit string that is empty, has a bad unused count or unused bits set
    BadBits,
    // 64: a bit string whose trailing zero bits are kept
    TrailingBits,
    // 65: a text that is not well formed
    BadText,
    // 66: a time that is none
    BadTime,
    // 67: a NULL with contents
    BadNull,
    // 68: a default that is written out
    DefaultWritten,
    // 7: a value outside its bound, a length outside its bound, a bit string over 32 bits, the 256th condition of one list
    OutOfRange,
    BadSize,
    ManyBits,
    ManyConditions,
    // 8: index without length or the reverse; pwdFlags bits 6 and 7 both set
    PathPair,
    PasswordFlags,
    // 9: one level too many
    TooDeep,
    // 10: the 129th object
    ManyObjects,
    // 11: fill bytes differ
    FillDiffers,
    // 12: a path named twice; a file that differs from its entry, lacks, or is one too many
    PathTwice,
    FileDiffers,
    FileMissing,
    FileExtra,
    // 13: two authentication objects with equal own authId
    AuthIdTwice,
    // 14: output too short
    NoRoom,
    // 15: no accepted dump has this book
    NoDump,
    // 16: object or field not there
    NotThere,
    // 17: a record holds a second object
    SecondObject,
}

// The number that the documents give a fault.
impl From<Fault> for u32 {
    ghost from_gives = { λ f n. n ≡ number_of f };

    fn from(f: Fault) -> u32 {
        match f {
            Fault::DumpSize => 1,
            Fault::RecordBroken => 2,
            Fault::RecordMissing => 2,
            Fault::RecordKind => 2,
            Fault::FileLength => 2,
            Fault::PathLength => 2,
            Fault::RecordOver => 2,
            Fault::BadTag => 3,
            Fault::CutTag => 3,
            Fault::NotDue => 3,
            Fault::OneMore => 3,
            Fault::BadLength => 4,
            Fault::CutLength => 4,
            Fault::LongLength => 4,
            Fault::Missing => 5,
            Fault::BadBoolean => 61,
            Fault::BadInteger => 62,
            Fault::BadBits => 63,
            Fault::TrailingBits => 64,
            Fault::BadText => 65,
            Fault::BadTime => 66,
            Fault::BadNull => 67,
            Fault::DefaultWritten => 68,
            Fault::OutOfRange => 7,
            Fault::BadSize => 7,
            Fault::ManyBits => 7,
            Fault::ManyConditions => 7,
            Fault::PathPair => 8,
            Fault::PasswordFlags => 8,
            Fault::TooDeep => 9,
            Fault::ManyObjects => 10,
            Fault::FillDiffers => 11,
            Fault::PathTwice => 12,
            Fault::FileDiffers => 12,
            Fault::FileMissing => 12,
            Fault::FileExtra => 12,
            Fault::AuthIdTwice => 13,
            Fault::NoRoom => 14,
            Fault::NoDump => 15,
            Fault::NotThere => 16,
            Fault::SecondObject => 17,
        }
    }
}

pub fn number_of(f: Fault) -> u32
    ensures { result ≡ number_of f }
{
    u32::from(f)
}

impl fmt::Display for Fault {
    ghost output = { λ f. Some (decimal (number_of f)) };

    fn fmt<W: fmt::Write>(&self, f: &mut fmt::Formatter<W>) -> fmt::Result {
        fmt::Display::fmt(&u32::from(*self), f)
    }
}
