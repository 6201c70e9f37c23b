// What a record is to the links: by its kind and its entry's tag.
ghost use Rattle.std.specs.Prelude.{◌≡◌, Some};
ghost use Rattle.rules.specs.Blocks.{closing};
ghost use Rattle.links.specs.Links.{certifying, states, answering, id_kind};
ghost use Rattle.links.specs.Numbers.{number_of, number_if, name_of, Names};

use std::fmt;

// "1. auth: each 0123"; "2. condition: each 0127"; "3. cert: each 0130 of a private key"
#[derive(Clone, Copy, Debug, PartialEq, Eq)]
pub enum Link {
    Auth,
    Condition,
    Cert,
}

// A number that is no link's.
#[derive(Clone, Copy, Debug, PartialEq, Eq)]
pub struct NoLink(pub u32);

impl From<Link> for u32 {
    ghost from_gives = { λ link n. n ≡ number_of link };

    fn from(link: Link) -> u32 {
        match link {
            Link::Auth => 1,
            Link::Condition => 2,
            Link::Cert => 3,
        }
    }
}

impl TryFrom<u32> for Link {
    type Error = NoLink;

    ghost try_from_gives = { Names };

    fn try_from(number: u32) -> Result<Self, NoLink> {
        match number {
            1 => Ok(Link::Auth),
            2 => Ok(Link::Condition),
            3 => Ok(Link::Cert),
            _ => Err(NoLink(number)),
        }
    }
}

impl fmt::Display for Link {
    ghost output = { λ link. Some (name_of link) };

    fn fmt<W: fmt::Write>(&self, f: &mut fmt::Formatter<W>) -> fmt::Result {
        f.write_str(match self {
            Link::Auth => "auth",
            Link::Condition => "condition",
            Link::Cert => "cert",
        })
    }
}

// Whether an object's records end with a record of this kind.
pub fn is_closing(kind: usize) -> bool
    ensures { result ≡ closing kind }
{
    match kind {
        // fill, an entry, an object
        0x0107 | 0x0110 | 0x0120 => true,
        // a transparent file, a record file, a record
        0x0118..=0x011a => true,
        // EF.DIR
        _ => 0x0200 <= kind,
    }
}

// "certificate (A4, A5, A6)"
fn is_certifying(entry: u8) -> bool
    ensures { result ≡ certifying entry }
{
    matches!(entry, 0xa4..=0xa6)
}

// The link that a record states, if any.
#[tactic(auto, unfolding(crate::specs::Links::states))]
pub fn link_of(entry: u8, kind: usize) -> Option<Link>
    ensures { number_if result ≡ states entry kind }
{
    match kind {
        0x0123 => Some(Link::Auth),
        0x0127 => Some(Link::Condition),
        0x0130 => {
            if entry == 0xa0 {
                return Some(Link::Cert);
            }
            None
        }
        _ => None,
    }
}

// Whether objects of this entry answer the link.
#[tactic(auto, unfolding(crate::specs::Links::answering))]
pub fn is_answering(link: u32, entry: u8) -> bool
    ensures { result ≡ answering link entry }
{
    if link == 3 {
        return is_certifying(entry);
    }
    entry == 0xa8
}

// The kind that holds an object's identifier.
#[tactic(auto, unfolding(crate::specs::Links::id_kind))]
pub fn id_kind(entry: u8) -> usize
    ensures { result ≡ id_kind entry }
{
    if is_certifying(entry) {
        return 0x0140;
    }
    0x0150
}
