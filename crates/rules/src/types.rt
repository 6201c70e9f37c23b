ghost use Rattle.std.specs.Prelude.{◌≡◌};
ghost use Rattle.rules.specs.Tables.{type_of};

use crate::table::ObjectType;

// What an object's type is: by its entry's tag and its own.
pub fn type_of(entry: u8, tag: u8) -> ObjectType
    ensures { result ≡ type_of entry tag }
{
    if tag != 0x30 {
        return ObjectType::Sealed;
    }
    match entry {
        0xa0 => ObjectType::PrivateKey,
        0xa4..=0xa6 => ObjectType::Certificate,
        0xa8 => ObjectType::Password,
        _ => ObjectType::Sealed,
    }
}
