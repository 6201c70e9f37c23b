// What became of a slice of bytes or numbers that was lent to a service: every element of it is looked at.
use crate::show::{Hex, Refused};
use elements::Refusal;
use std::io;

// What a slice that is lent has for elements.
pub trait Lent: Copy + PartialEq {
    // What element i is before.
    fn before(i: usize) -> Self;

    // What a service filled, behind how much that is.
    fn show(rt: &impl Print, filled: &[Self]) -> io::Result<()>;
}

// The longest book or dump that is printed whole.
const SHORT: usize = 600;

// Adler-32 (RFC 1950): a number for books and dumps that are too long to print.
fn adler(s: &[u8]) -> u32 {
    let mut a = 1u32;
    let mut b = 0u32;
    for x in s {
        a = (a + u32::from(*x)) % 65521;
        b = (b + a) % 65521;
    }
    b * 65536 + a
}

impl Lent for u8 {
    // (7 i + 3) mod 251, so that no constant passes for it
    fn before(i: usize) -> u8 {
        ((i % 251 * 7 + 3) % 251) as u8
    }

    // whole, or by their digest
    fn show(rt: &impl Print, filled: &[u8]) -> io::Result<()> {
        if filled.len() <= SHORT {
            let bytes = Hex(filled);
            return print!(rt; " {bytes}");
        }
        let digest = adler(filled);
        print!(rt; " adler-32 {digest:08x}")
    }
}

// What stands in a row for an answer that is missing.
const MISSING: u32 = u32::MAX;

impl Lent for u32 {
    // no number of a row, and no two alike
    fn before(i: usize) -> u32 {
        (i % 65536 + 4000000000) as u32
    }

    // The rows, four numbers each; a missing answer is told as -.
    fn show(rt: &impl Print, filled: &[u32]) -> io::Result<()> {
        let (rows, _) = filled.as_chunks::<4>();
        for row in rows {
            print!(rt; ";")?;
            for n in row {
                if *n == MISSING {
                    print!(rt; " -")?;
                } else {
                    print!(rt; " {n}")?;
                }
            }
        }
        Ok(())
    }
}

// Each element as it is before.
pub fn prepare<T: Lent>(lent: &mut [T]) {
    for (i, x) in lent.iter_mut().enumerate() {
        *x = T::before(i);
    }
}

// Whether each element from `from` on is what it was before.
pub fn is_kept<T: Lent>(lent: &[T], from: usize) -> bool {
    for (i, x) in lent.iter().enumerate() {
        if from <= i && *x != T::before(i) {
            return false;
        }
    }
    true
}

// What a service answered, and what became of the slice that was lent to it.
pub fn told<T: Lent>(
    rt: &impl Print,
    what: &str,
    answer: Result<usize, Refusal>,
    lent: &[T],
) -> io::Result<()> {
    match answer {
        Err(e) => {
            let refused = Refused(e);
            if is_kept(lent, 0) {
                print!(rt; "{refused}, output unchanged")
            } else {
                print!(rt; "{refused}, OUTPUT CHANGED")
            }
        }
        Ok(n) => {
            let Some(filled) = lent.get(..n) else {
                return print!(rt; "LONGER THAN THE SLICE");
            };
            print!(rt; "{what} {n}")?;
            T::show(rt, filled)?;
            if is_kept(lent, n) {
                print!(rt; ", past it unchanged")
            } else {
                print!(rt; ", PAST IT CHANGED")
            }
        }
    }
}
