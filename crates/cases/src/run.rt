// The cases, line by line.
use crate::command::Command;
use crate::dump::book_of;
use crate::hex::decode;
use crate::show::Refused;
use crate::stop::Stop;
use crate::text::Text;
use crate::{book, dump, element, link};
use elements::Form;
use std::io;

// The tags that may not occur in CIAInfo's rest.
const KEPT_OUT: [u8; 3] = [0x04, 0x0c, 0x80];

// The first n of what there is room for.
fn room<T>(lent: &mut [T], n: usize) -> Result<&mut [T], Stop> {
    lent.get_mut(..n).ok_or(Stop::BadLine)
}

// What is asked of a case's bytes, with lent bytes and numbers.
fn run(
    rt: &impl Print,
    command: Command,
    s: &[u8],
    bytes: &mut [u8; 131072],
    numbers: &mut [u32; 32768],
) -> Result<(), Stop> {
    match command {
        Command::Length(n) => element::length(rt, n)?,
        Command::Header => element::header(rt, s)?,
        Command::Sealed => element::run(rt, s, &[])?,
        Command::Rest => element::run(rt, s, &KEPT_OUT)?,
        Command::Element(form, tag) => {
            element::read(rt, form, tag, s)?;
        }
        Command::Number(form, tag) => element::number(rt, form, tag, s, s.len())?,
        Command::Room(n) => element::number(rt, Form::Bits, 0x03, s, n)?,
        Command::Back => book::back(rt, book_of(s, bytes)?, s)?,
        // as many as the lister lends
        Command::Links => link::list(rt, book_of(s, &mut bytes[..65536])?, &mut numbers[..16384])?,
        Command::Read(n) => dump::read(rt, s, room(bytes, n)?)?,
        Command::Write(n) => book::write(rt, s, room(bytes, n)?)?,
        Command::List(n) => link::list(rt, s, room(numbers, n)?)?,
        Command::Why(row) => link::reason(rt, book_of(s, bytes)?, row)?,
        Command::WhyBook(row) => link::reason(rt, s, row)?,
        Command::Spread(0) => return Err(Stop::BadLine),
        Command::Spread(step) => book::spread(rt, book_of(s, bytes)?, step)?,
        Command::Field(object, kind) => link::field(rt, book_of(s, bytes)?, object, kind)?,
        Command::FieldBook(object, kind) => link::field(rt, s, object, kind)?,
        Command::Unknown => print!(rt; "unknown word")?,
    }
    Ok(())
}

// The answer to a line, with a lent array for the case's bytes, and lent bytes and numbers.
fn answer(
    rt: &impl Print,
    line: &[u8],
    case: &mut [u8; 139999],
    bytes: &mut [u8; 131072],
    numbers: &mut [u32; 32768],
) -> Result<(), Stop> {
    let mut text = Text(line);
    let command = Command::parse(&mut text).ok_or(Stop::BadLine)?;
    let s = decode(text, &mut case[..command.most_bytes()]).ok_or(Stop::BadLine)?;
    run(rt, command, s, bytes, numbers)
}

// A line as it is, and for a case the answer, in the same lent arrays.
fn one(
    rt: &impl Print,
    line: &[u8],
    case: &mut [u8; 139999],
    bytes: &mut [u8; 131072],
    numbers: &mut [u32; 32768],
) -> io::Result<()> {
    rt.write_all(line)?;
    if matches!(line, [] | [b'#', ..]) {
        return Ok(());
    }
    print!(rt; " = ")?;
    match answer(rt, line, case, bytes, numbers) {
        Ok(()) => Ok(()),
        Err(Stop::BadLine) => print!(rt; "bad line"),
        Err(Stop::Refused(e)) => {
            let refused = Refused(e);
            print!(rt; "{refused}")
        }
        Err(Stop::LongBook) => print!(rt; "BOOK LONGER THAN THE SLICE"),
        Err(Stop::Print(error)) => Err(error),
    }
}

// Every line in turn, in arrays that are made once: a line reads in them only what was written for it.
pub fn lines(rt: &impl Print, s: &[u8]) -> io::Result<()> {
    let mut case = [0u8; 139999];
    let mut bytes = [0u8; 131072];
    let mut numbers = [0u32; 32768];
    for line in s.split_inclusive(|c| *c == b'\n') {
        let line = line.strip_suffix(b"\n").unwrap_or(line);
        one(rt, line, &mut case, &mut bytes, &mut numbers)?;
        println!(rt)?;
    }
    Ok(())
}
