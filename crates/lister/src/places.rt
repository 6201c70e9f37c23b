// Where a card's objects stand: number, class, file, path, offset in the file, place in the dump.
ghost use Rattle.std.specs.Prelude.{◌+◌, ◌≤◌, length, IfSome};

use crate::records::{Record, records_of};
use std::{fmt, io};

// "private, public and trusted public keys, secret keys, certificates, trusted and useful certificates, data
// containers, authentication objects"
fn class(entry: u8) -> &'static str {
    match entry {
        0xa0 => "private-key",
        0xa1 => "public-key",
        0xa2 => "trusted-public-key",
        0xa3 => "secret-key",
        0xa4 => "certificate",
        0xa5 => "trusted-certificate",
        0xa6 => "useful-certificate",
        0xa7 => "data-container",
        _ => "authentication-object",
    }
}

// Bytes in hex.
#[derive(Clone, Copy)]
struct Hex<'a>(&'a [u8]);

impl fmt::Display for Hex<'_> {
    fn fmt<W: fmt::Write>(&self, f: &mut fmt::Formatter<W>) -> fmt::Result {
        for b in self.0 {
            write!(f, "{b:02x}")?;
        }
        Ok(())
    }
}

// The file with this number, in the dump.
fn file_at(dump: &[u8], n: usize) -> Option<Record<'_>>
    requires { length dump.now ≤ 131072 }
    ensures { IfSome result (λ file. file.start + 4 ≤ length dump.now) }
{
    records_of(dump).filter(Record::is_file).nth(n)
}

// A file's path, which stands before its bytes, behind the path's length.
fn path(payload: &[u8]) -> Option<&[u8]> {
    let (n, rest) = payload.split_first()?;
    rest.get(..usize::from(*n))
}

// The file by its number and its path, `-` for EF.OD, the offset in the file, and the place in the dump.
fn place(rt: &impl Print, dump: &[u8], n: usize, offset: u16) -> io::Result<()>
    requires { length dump.now ≤ 131072 }
{
    print!(rt; "{n} ")?;
    let Some(file) = file_at(dump, n) else {
        return println!(rt);
    };
    let contents = file.start + 4 + usize::from(offset);
    if n == 0 {
        return println!(rt; "- {offset} {contents}");
    }
    let Some(path) = path(file.payload) else {
        return println!(rt);
    };
    let contents = contents + 1 + path.len();
    let path = Hex(path);
    println!(rt; "{path} {offset} {contents}")
}

// "objects", their number, and a line for each; of a card's dump and its book.
pub fn objects(rt: &impl Print, dump: &[u8], book: &[u8]) -> io::Result<()> {
    if 131072 < dump.len() || 131072 < book.len() {
        return Ok(());
    }
    let count = records_of(book).filter(Record::is_object).count();
    println!(rt; "objects {count}")?;
    for (k, object) in records_of(book).filter(Record::is_object).enumerate() {
        let [entry, _, f0, f1, o0, o1, ..] = object.payload else {
            return Ok(());
        };
        let class = class(*entry);
        print!(rt; "{k} {class} ")?;
        let file = u16::from_le_bytes([*f0, *f1]);
        let offset = u16::from_le_bytes([*o0, *o1]);
        place(rt, dump, usize::from(file), offset)?;
    }
    Ok(())
}
