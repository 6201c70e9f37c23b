ghost use Rattle.std.specs.Prelude.{◌≡◌, [], ◌+◌, ◌*◌, ◌≤◌, length};
ghost use Rattle.rules.specs.Files.{dir, has_dir, read_from, read_dump};
ghost use Rattle.objects.specs.Did.{InContainer};
ghost use Rattle.reader.specs.Stages.{Reads, Framing, Opened, FilesRead, EntriesRead, PartsRead, HeadsTold, Judged, DirFirst};

use crate::directories::directories;
use crate::frame::{Extent, frame, frames};
use crate::twelve::follow;
use elements::{Fault, Refusal};
use files::{id_twice, info, object_directory};
use objects::Cursor;
use rules::{byte_at, of_two};
use templates::dir;

// 12, the files in turn, 13: EF.OD up to `stop` has the records that the book has from i to end, with k objects, whose places are in marks; `again` is the place of its first entry that names a path once more.
fn read_files(
    s: &[u8],
    stop: usize,
    out: &mut [u8],
    i: usize,
    end: usize,
    marks: &mut [u32],
    k: usize,
    again: Option<usize>,
) -> Result<usize, Refusal>
    requires { Opened s.now stop out.old i end marks.old k }
    ensures { FilesRead s.now stop out.old out.new i end marks.old k again result }
{
    if let Some(p) = again {
        return Err(Refusal(Fault::PathTwice, p));
    }
    follow(s, stop, out, i, end)?;
    let (n, j) = directories(s, stop, i, end, k, out, end, marks)?;
    match id_twice(out, i, n, &marks[..j]) {
        Some(p) => Err(Refusal(Fault::AuthIdTwice, p)),
        None => Ok(n),
    }
}

// EF.OD from `start` to `stop`, its records from i on; then the files.
fn read_entries(
    s: &[u8],
    start: usize,
    stop: usize,
    out: &mut [u8],
    i: usize,
    marks: &mut [u32],
) -> Result<usize, Refusal>
    requires { Framing s.now start stop out.old × (i + 3 ≤ 4 * start) × (128 ≤ length marks.old) }
    ensures { EntriesRead s.now start stop out.old out.new i result }
{
    let at = Cursor {
        dump: start,
        book: i,
    };
    let read = object_directory(s, stop, at, out, marks)?;
    read_files(
        s,
        stop,
        out,
        i,
        read.at.book,
        marks,
        read.objects,
        read.again,
    )
}

// The files that every dump has: CIAInfo's and EF.OD's.
#[derive(Clone, Copy, Debug, PartialEq, Eq)]
pub struct Heads {
    pub info: Extent,
    pub main: Extent,
}

// CIAInfo; then EF.OD and the files.
fn read_parts(s: &[u8], heads: Heads, out: &mut [u8]) -> Result<usize, Refusal>
    requires { Framing s.now heads.main.start heads.main.stop out.old × (4 ≤ heads.info.start) × (heads.info.start ≤ heads.info.stop) × (heads.info.stop + 4 ≤ heads.main.start) }
    ensures { PartsRead s.now heads.info.start heads.info.stop heads.main.start heads.main.stop out.old out.new result }
{
    let at = Cursor {
        dump: heads.info.start,
        book: 0,
    };
    let at = info(s, heads.info.stop, at, out)?;
    let mut marks = [0u32; 128];
    read_entries(
        s,
        heads.main.start,
        heads.main.stop,
        out,
        at.book,
        &mut marks,
    )
}

// All frames from CIAInfo's on.
fn all_framed(s: &[u8], at: usize) -> Result<Heads, Refusal>
    requires { (at ≤ length s.now) × (length s.now ≤ 32768) }
    ensures { HeadsTold s.now at result }
{
    let info = frame(s, 1, at)?;
    let main = frame(s, 2, info.stop)?;
    frames(s, main.stop)?;
    Ok(Heads { info, main })
}

// A dump without EF.DIR.
fn read_plain(s: &[u8], out: &mut [u8]) -> Result<usize, Refusal>
    requires { (length s.now ≤ 32768) × (131072 ≤ length out.old) }
    ensures { Reads [] out.old out.new 0 (read_from s.now 0 (λ x. x)) result }
{
    let heads = all_framed(s, 0)?;
    read_parts(s, heads, out)
}

// EF.DIR from a to e, read for its refusal alone.
fn judged(s: &[u8], a: usize, e: usize) -> Result<Cursor, Refusal>
    requires { InContainer s.now e a 4 }
    ensures { Judged a e (dir s.now e a) result }
{
    let mut none = [0u8; 1];
    dir(s, e, Cursor { dump: a, book: 0 }, &mut none)
}

// A dump with EF.DIR, from a to e: "EF.DIR is read before CIAInfo", "Its book records .. come after all others".
fn read_behind(s: &[u8], a: usize, e: usize, out: &mut [u8]) -> Result<usize, Refusal>
    requires { DirFirst s.now a e × (131072 ≤ length out.old) }
    ensures { Reads [] out.old out.new 0 (read_dump s.now) result }
{
    let heads = all_framed(s, e)?;
    judged(s, a, e)?;
    let n = read_parts(s, heads, out)?;
    let at = dir(s, e, Cursor { dump: a, book: n }, out)?;
    Ok(at.book)
}

// Whether the first record is 0005.
fn has_dir(s: &[u8]) -> bool
    ensures { result ≡ has_dir s.now }
{
    of_two(byte_at(s, 0, s.len(), 2), byte_at(s, 0, s.len(), 3)) == 5
}

// A dump into a book: "1; all frames; CIAInfo; EF.OD; 12; files in turn; 13", and before CIAInfo EF.DIR.
pub fn read_into(s: &[u8], out: &mut [u8]) -> Result<usize, Refusal>
    requires { 131072 ≤ length out.old }
    ensures { Reads [] out.old out.new 0 (read_dump s.now) result }
{
    if 32768 < s.len() {
        return Err(Refusal(Fault::DumpSize, 0));
    }
    if has_dir(s) {
        let first = frame(s, 5, 0)?;
        return read_behind(s, first.start, first.stop, out);
    }
    read_plain(s, out)
}
