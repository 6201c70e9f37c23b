// Where a value stands that no object of the class bears, and whether there is one of the class.
ghost use Rattle.std.specs.Prelude.{◌≡◌, ◌≤◌, length};
ghost use Rattle.std.proofs.Math.Seq.{slice};
ghost use Rattle.links.specs.Numbers.{number_of};
ghost use Rattle.links.specs.Finding.{Within, held_at, objects_at, FoundAt};
ghost use Rattle.elements.specs.Sealed.{among};
ghost use Rattle.why.specs.Why.{identifier_kinds, aside, stands_in, stands};
ghost use Rattle.why.specs.Whys.{PeopledTold};

use links::{Entry, Link, is_answering, is_closing, link_of, next_object};
use rules::{byte_at, record_end, same_bytes, word};

// "a record 0123, 0127, 0130, 0140 or 0150"
fn is_identifier(kind: usize) -> bool
    ensures { result ≡ among kind identifier_kinds }
{
    matches!(kind, 0x0123 | 0x0127 | 0x0130 | 0x0140 | 0x0150)
}

// Whether a record is one of these and does not state this link.
#[tactic(auto, unfolding(crate::specs::Why::aside))]
fn is_aside(link: Link, entry: u8, kind: usize) -> bool
    ensures { result ≡ aside (number_of link) entry kind }
{
    if !is_identifier(kind) {
        return false;
    }
    link_of(entry, kind) != Some(link)
}

// The first of an object's records, from the one at i on, in which the value from p to e stands.
fn stands_in(b: &[u8], i: usize, link: Link, entry: u8, p: usize, e: usize) -> Option<usize>
    requires { Within b.now i × (p ≤ e) × (e ≤ length b.now) }
    ensures { FoundAt b.now (stands_in (number_of link) (slice p e b.now) entry (held_at b.now i)) result }
{
    let mut j = i;
    while j + 4 <= b.len() {
        let k = word(b, j + 2);
        if is_closing(k) {
            return None;
        }
        let m = record_end(b, j);
        if is_aside(link, entry, k) {
            if same_bytes(b, p, e, b, j + 4, m) {
                return Some(j);
            }
        }
        j = m;
    }
    None
}

// The first of all.
pub fn stands(b: &[u8], link: Link, p: usize, e: usize) -> Option<usize>
    requires { Within b.now 0 × (p ≤ e) × (e ≤ length b.now) }
    ensures { FoundAt b.now (stands (number_of link) (slice p e b.now) (objects_at b.now 0)) result }
{
    let mut i = 0;
    while let Some(j) = next_object(b, i) {
        i = record_end(b, j);
        let r = stands_in(b, i, link, byte_at(b, j + 4, i, 0), p, e);
        if r.is_some() {
            return r;
        }
    }
    None
}

// Whether one of these objects is of the class that answers the link.
pub fn is_peopled(link: Link, entries: &[Entry]) -> bool
    ensures { PeopledTold (number_of link) entries.now result }
{
    for x in entries {
        if is_answering(u32::from(link), x.tag) {
            return true;
        }
    }
    false
}
