// A dump through the read service.
use crate::lent::{prepare, told};
use crate::stop::Stop;
use std::io;

// The dump into the lent slice, and what became of both.
pub fn read(rt: &impl Print, dump: &[u8], lent: &mut [u8]) -> io::Result<()> {
    prepare(lent);
    let answer = layouts::read(dump, lent);
    told(rt, "book", answer, lent)
}

// The dump's book, in lent bytes.
pub fn book_of<'a>(dump: &[u8], lent: &'a mut [u8]) -> Result<&'a mut [u8], Stop> {
    let n = layouts::read(dump, lent)?;
    lent.get_mut(..n).ok_or(Stop::LongBook)
}
