// A book through the list, field and why services: a field is compared with the place that is told.
use crate::lent::{prepare, told};
use crate::show::{Hex, Refused};
use links::Place;
use std::io;
use why::Why;

// The book's links into the lent numbers, and what became of them.
pub fn list(rt: &impl Print, book: &[u8], lent: &mut [u32]) -> io::Result<()> {
    prepare(lent);
    let answer = links::list(book, lent);
    told(rt, "accepted", answer, lent)
}

// Whether the part is the n bytes of the book from p on.
fn is_part(book: &[u8], p: usize, n: usize, part: &[u8]) -> bool {
    let Some(from) = book.get(p..) else {
        return false;
    };
    match from.get(..n) {
        Some(bytes) => bytes == part,
        None => false,
    }
}

// A field of a book: where it is, or the refusal, and the field itself, which is empty on a refusal.
pub fn field(rt: &impl Print, book: &[u8], object: u32, kind: u32) -> io::Result<()> {
    let part = links::field(book, object, kind);
    let agrees = match links::field_place(book, object, kind) {
        Err(e) => {
            let refused = Refused(e);
            print!(rt; "{refused}")?;
            part.is_empty()
        }
        Ok(Place { at, size }) => {
            print!(rt; "at {at} length {size}")?;
            is_part(book, at, size, part)
        }
    };
    let part = Hex(part);
    print!(rt; " [{part}]")?;
    if agrees {
        return Ok(());
    }
    print!(rt; " DIFFER")
}

// Why a row of a book's list is as it is.
pub fn reason(rt: &impl Print, book: &[u8], row: usize) -> io::Result<()> {
    match why::why(book, row) {
        Ok(Why::Met(place, kind)) => print!(rt; "met {place} {kind:04x}"),
        Ok(Why::NoObject) => print!(rt; "no object of the class"),
        Ok(Why::Elsewhere(place, kind)) => print!(rt; "elsewhere {place} {kind:04x}"),
        Ok(Why::Nowhere) => print!(rt; "nowhere"),
        Err(e) => {
            let refused = Refused(e);
            print!(rt; "{refused}")
        }
    }
}
