ghost use Rattle.std.specs.Prelude.{◌≡◌, ◌+◌, ◌*◌, ◌≤◌, length};
ghost use Rattle.objects.specs.Did.{InContainer};
ghost use Rattle.files.specs.Filing.{DidObjects, more_of, full_of, objects_in, opened_by, filled_up};

use crate::fills::{fill, goes_on};
use elements::{Fault, Refusal, put};
use objects::{Cursor, object_at, put_bare};
use rules::Site;

// What holds objects: a list in EF.OD, a transparent file, a record of a record file.
#[derive(Clone, Copy, Debug, PartialEq, Eq)]
pub enum Holder {
    List,
    File,
    Record,
}

// Whether another object comes: up to a list's end, or up to the fill.
fn more_at(s: &[u8], x: Holder, end: usize, at: usize) -> bool
    requires { end ≤ length s.now }
    ensures { result ≡ more_of s.now x end at }
{
    match x {
        Holder::List => at < end,
        Holder::File | Holder::Record => goes_on(s, end, at),
    }
}

// "one object or none": whether a record has its one, k objects having come before it and j in all.
fn is_full(x: Holder, k: usize, j: usize) -> bool
    ensures { result ≡ full_of x k j }
{
    match x {
        Holder::List | Holder::File => false,
        Holder::Record => k < j,
    }
}

// Objects, after k objects of the dump; their places go to marks.
pub fn objects(
    s: &[u8],
    x: Holder,
    site: Site,
    entry: u8,
    k: usize,
    end: usize,
    from: Cursor,
    out: &mut [u8],
    marks: &mut [u32],
) -> Result<(Cursor, usize), Refusal>
    requires { (k ≤ 128) × InContainer s.now end from.dump from.book }
    ensures { DidObjects out.old out.new marks.old marks.new from.book from.dump end k (objects_in s.now x site entry k end from.dump) result }
{
    let mut j = k;
    let mut at = from;
    while more_at(s, x, end, at.dump) {
        if is_full(x, k, j) {
            return Err(Refusal(Fault::SecondObject, at.dump));
        }
        let next = object_at(s, site, entry, j, end, at, out)?;
        j = put(marks, j, at.dump as u32);
        at = next;
    }
    Ok((at, j))
}

// Objects behind the record that opens what holds them.
fn opened(
    s: &[u8],
    x: Holder,
    kind: u16,
    site: Site,
    entry: u8,
    k: usize,
    end: usize,
    at: Cursor,
    out: &mut [u8],
    marks: &mut [u32],
) -> Result<(Cursor, usize), Refusal>
    requires { (k ≤ 128) × (at.book + 4 ≤ 8 * at.dump + 131072) × InContainer s.now end at.dump at.book }
    ensures { DidObjects out.old out.new marks.old marks.new at.book at.dump end k (opened_by s.now x kind site entry k end at.dump) result }
{
    let book = put_bare(out, at.book, kind);
    objects(
        s,
        x,
        site,
        entry,
        k,
        end,
        Cursor {
            dump: at.dump,
            book,
        },
        out,
        marks,
    )
}

// The same, and then fill: a transparent file, or a record of a record file.
pub fn held(
    s: &[u8],
    x: Holder,
    kind: u16,
    site: Site,
    entry: u8,
    k: usize,
    end: usize,
    at: Cursor,
    out: &mut [u8],
    marks: &mut [u32],
) -> Result<(Cursor, usize), Refusal>
    requires { (k ≤ 128) × (at.book + 4 ≤ 8 * at.dump + 131072) × InContainer s.now end at.dump at.book }
    ensures { DidObjects out.old out.new marks.old marks.new at.book at.dump end k (filled_up s.now x kind site entry k end at.dump) result }
{
    let (at, j) = opened(s, x, kind, site, entry, k, end, at, out, marks)?;
    let at = fill(s, 0x0107, end, at, out)?;
    Ok((at, j))
}
