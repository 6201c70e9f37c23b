ghost use Rattle.std.specs.Prelude.{◌≡◌};
ghost use Rattle.rules.specs.Tables.{class_of};

use crate::table::Class;

// "which entry tag reads which class": A0 to A8.
const CLASSES: [Class; 9] = [
    Class::Keys,
    Class::Keys,
    Class::Keys,
    Class::Keys,
    Class::Certificates,
    Class::Certificates,
    Class::Certificates,
    Class::Containers,
    Class::Authentications,
];

// The class of an entry's objects; of a tag that is no entry's, keys.
pub fn class_of(entry: u8) -> Class
    ensures { result ≡ class_of entry }
{
    if entry < 0xa0 {
        return Class::Keys;
    }
    if 0xa8 < entry {
        return Class::Keys;
    }
    CLASSES[(entry - 0xa0) as usize]
}
