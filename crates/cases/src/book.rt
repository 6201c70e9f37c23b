// A book through the write service, a dump into its book and back, and books with one byte changed.
ghost use Rattle.std.specs.Prelude.{◌<◌, ◌≡◌, length};

use crate::lent::{is_kept, prepare, told};
use elements::{Fault, Refusal};
use layouts::is_book;
use std::io;

// The book into the lent slice, and what became of both. The book is one exactly if write doesn't refuse it so.
pub fn write(rt: &impl Print, book: &[u8], lent: &mut [u8]) -> io::Result<()> {
    prepare(lent);
    let answer = layouts::write(book, lent);
    if is_book(book) == matches!(answer, Err(Refusal(Fault::NoDump, _))) {
        return print!(rt; "IS_BOOK DIFFERS");
    }
    told(rt, "dump", answer, lent)
}

// Whether the book is written as this dump into a slice of just the dump's length.
fn is_just_long_enough(book: &[u8], dump: &[u8]) -> bool {
    let mut space = [0u8; 32768];
    let Some(lent) = space.get_mut(..dump.len()) else {
        return false;
    };
    match layouts::write(book, lent) {
        Ok(n) => n == lent.len() && dump == lent,
        Err(_) => false,
    }
}

// Whether one byte less is too short for the book's dump: that is refused with the dump's size, and the slice is what
// it was.
fn is_one_byte_short(book: &[u8], size: usize) -> bool {
    let mut space = [0u8; 32768];
    if size == 0 || space.len() < size {
        return false;
    }
    let lent = &mut space[..size - 1];
    prepare(lent);
    match layouts::write(book, lent) {
        Err(Refusal(Fault::NoRoom, place)) => place == size && is_kept(lent, 0),
        _ => false,
    }
}

// The book of the dump, written again.
pub fn back(rt: &impl Print, book: &[u8], dump: &[u8]) -> io::Result<()> {
    let n = book.len();
    if !is_just_long_enough(book, dump) {
        print!(rt; "book {n}, NOT THE DUMP")
    } else if !is_one_byte_short(book, dump.len()) {
        print!(rt; "book {n}, NOT 14")
    } else {
        print!(rt; "book {n}, the dump again")
    }
}

// A changed book is refused 15 at 0, or has a dump that is read into it, or neither.
enum Became {
    Refused,
    Back,
    Wrong,
}

// Whether the dump is read into this book.
fn has(dump: &[u8], book: &[u8]) -> bool {
    let mut space = [0u8; 131072];
    match layouts::read(dump, &mut space) {
        Ok(n) => space.get(..n) == Some(book),
        Err(_) => false,
    }
}

// What becomes of a changed book.
fn tried(book: &[u8]) -> Became {
    let mut space = [0u8; 32768];
    match layouts::write(book, &mut space) {
        Err(Refusal(Fault::NoDump, 0)) => Became::Refused,
        Err(_) => Became::Wrong,
        Ok(n) => match space.get(..n) {
            Some(dump) if has(dump, book) => Became::Back,
            _ => Became::Wrong,
        },
    }
}

// What became of the changed books.
#[derive(Clone, Copy, Default)]
struct Tally {
    changed: u32,
    refused: u32,
    back: u32,
    wrong: u32,
}

impl Tally {
    // One more changed book.
    fn count(&mut self, became: Became) {
        let n = match became {
            Became::Refused => &mut self.refused,
            Became::Back => &mut self.back,
            Became::Wrong => &mut self.wrong,
        };
        *n = n.saturating_add(1);
        self.changed = self.changed.saturating_add(1);
    }

    // The book with another byte at i; where that is the byte it has, nothing is changed.
    fn with_byte(&mut self, book: &mut [u8], i: usize, other: u8)
        requires { i < length book.old }
        ensures { length book.new ≡ length book.old }
    {
        let is = book[i];
        if other == is {
            return;
        }
        book[i] = other;
        self.count(tried(book));
        book[i] = is;
    }

    // Five changes of the byte at i: one larger, one smaller, its highest bit changed, 0 and 255.
    fn at_place(&mut self, book: &mut [u8], i: usize)
        requires { i < length book.old }
        ensures { length book.new ≡ length book.old }
    {
        let is = book[i];
        for other in [is.wrapping_add(1), is.wrapping_sub(1), is ^ 0x80, 0, 255] {
            self.with_byte(book, i, other);
        }
    }
}

// The book's bytes at 0, step, 2 step and so on, changed one at a time. A wrong count is told only where there is one.
pub fn spread(rt: &impl Print, book: &mut [u8], step: usize) -> io::Result<()>
    requires { 0 < step }
{
    let mut tally = Tally::default();
    for i in (0..book.len()).step_by(step) {
        tally.at_place(book, i);
    }
    let Tally {
        changed,
        refused,
        back,
        wrong,
    } = tally;
    print!(rt; "changed {changed}, refused {refused}, read back {back}")?;
    if wrong == 0 {
        return Ok(());
    }
    print!(rt; ", WRONG {wrong}")
}
