// Objects and their records, sought in a book.
ghost use Rattle.links.specs.Links.{first_of};
ghost use Rattle.links.specs.Finding.{Within, held_at, NextObject, FoundAt};

use crate::sorts::is_closing;
use rules::{record_end, word};

// Where the next object's 0120 is, from the record at i on.
pub fn next_object(b: &[u8], i: usize) -> Option<usize>
    requires { Within b.now i }
    ensures { NextObject b.now i result }
{
    let mut j = i;
    while j + 4 <= b.len() {
        if word(b, j + 2) == 0x0120 {
            return Some(j);
        }
        j = record_end(b, j);
    }
    None
}

// Where the first record of this kind is among an object's records, from the one at i on.
pub fn find(b: &[u8], i: usize, kind: usize) -> Option<usize>
    requires { Within b.now i }
    ensures { FoundAt b.now (first_of kind (held_at b.now i)) result }
{
    let mut j = i;
    while j + 4 <= b.len() {
        let k = word(b, j + 2);
        if is_closing(k) {
            return None;
        }
        if k == kind {
            return Some(j);
        }
        j = record_end(b, j);
    }
    None
}
