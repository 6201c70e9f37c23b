ghost use Rattle.std.specs.Prelude.{◌≡◌};
ghost use Rattle.links.specs.Links.{object_at, field_in};
ghost use Rattle.links.specs.Finding.{Within, objects_at, Lies};
ghost use Rattle.links.specs.Serving.{place_of, PlacedAt, PlaceTold, FieldTold};

use crate::finding::{find, next_object};
use elements::{Fault, Refusal};
use layouts::is_book;
use rules::record_end;

// Where a field's payload is, its book offset and length.
#[derive(Clone, Copy, Debug, PartialEq, Eq)]
pub struct Place {
    pub at: usize,
    pub size: usize,
}

// The payload of the record that was found, or that there is none.
fn payload(b: &[u8], place: Option<usize>) -> Result<Place, Refusal>
    requires { Lies b.now place }
    ensures { PlacedAt b.now place result }
{
    match place {
        Some(p) => Ok(Place {
            at: p + 4,
            size: record_end(b, p) - (p + 4),
        }),
        None => Err(Refusal(Fault::NotThere, 0)),
    }
}

// The first record of this kind of the object with this number.
fn sought(b: &[u8], object: usize, kind: usize) -> Result<Place, Refusal>
    requires { Within b.now 0 }
    ensures { result ≡ place_of (field_in kind (object_at (objects_at b.now 0) object)) }
{
    let mut i = 0;
    let mut left = object;
    while let Some(j) = next_object(b, i) {
        i = record_end(b, j);
        if left == 0 {
            return payload(b, find(b, i, kind));
        }
        left -= 1;
    }
    Err(Refusal(Fault::NotThere, 0))
}

// Where a field of a book is: the first such record's payload of an object; or a refusal and its place.
pub fn field_place(book: &[u8], object: u32, kind: u32) -> Result<Place, Refusal>
    ensures { PlaceTold book.now object kind result }
{
    if !is_book(book) {
        return Err(Refusal(Fault::NoDump, 0));
    }
    match kind {
        0x0121..=0x01ff => sought(book, object as usize, kind as usize),
        _ => Err(Refusal(Fault::NotThere, 0)),
    }
}

// The field itself, a part of the book; empty on a refusal.
pub fn field<'a>(book: &'a [u8], object: u32, kind: u32) -> &'a [u8]
    ensures { FieldTold book.now object kind result.now }
{
    match field_place(book, object, kind) {
        Ok(x) => &book[x.at..x.at + x.size],
        Err(_) => &book[..0],
    }
}
