ghost use Rattle.std.specs.Prelude.{◌++◌, ◌+◌, ◌≤◌, length};
ghost use Rattle.std.proofs.Math.Seq.{slice};
ghost use Rattle.rules.specs.Book.{records, records_from};
ghost use Rattle.rules.specs.Render.{Renderer, r_dir, framing, render};
ghost use Rattle.makers.specs.Making.{Steps, Making, Makes, Ended, MayMake, EndsInside, MakesIn};
ghost use Rattle.writer.specs.Composed.{od_and_files, others_than_dir};
ghost use Rattle.writer.specs.MakingFiles.{Fitted, Named, named, FileMade, FilesMade};

use crate::behind::fronted;
use crate::make_entry::{make_cia, make_directory, make_od};
use crate::make_linear::make_linear;
use crate::make_template::make_dir;
use elements::{put, put_part};
use makers::{Made, TooLong};
use rules::{is_name, is_next, record_end};

// A path behind its length.
fn put_path(out: &mut [u8], o: usize, b: &[u8], p: usize, e: usize) -> usize
    requires { (p ≤ e) × (e ≤ length b.now) × (length b.now ≤ 131072) × (o ≤ 65536) }
    ensures { Named b.now out.old out.new p e o result }
{
    let n = put(out, o, ((e - p) % 256) as u8);
    put_part(out, n, b, p, e)
}

// A path behind its length, then what `file` makes.
fn named<F: FnOnce(Made, &mut [u8]) -> Result<Made, TooLong>>(
    b: &[u8],
    made: Made,
    p: usize,
    e: usize,
    out: &mut [u8],
    file: F,
) -> Result<Made, TooLong>
    requires places { (p ≤ e) × (e ≤ length b.now) × Making b.now made.next out.old made.end }
    requires may_make { MayMake (F.pre file) made.next (length out.old) }
    requires ends_inside { EndsInside (F.post file) }
    ensures ends { Ended (length out.new) result }
    ensures makes { (q : Renderer) → MakesIn (F.post file) b.now q → Makes b.now out.old out.new made.next made.end (named (slice p e b.now) q (records_from b.now made.next)) result }
{
    let end = put_path(out, made.end, b, p, e);
    if out.len() < end {
        return Err(TooLong);
    }
    file(Made { end, ..made }, out)
}

// A directory file for the record at j, which ends at e and names a path: transparent where 0118 is next,
// else of records.
fn make_file(b: &[u8], made: Made, j: usize, e: usize, out: &mut [u8]) -> Result<Made, TooLong>
    requires { (j + 6 ≤ e) × (e ≤ length b.now) × Making b.now made.next out.old made.end }
    ensures { FileMade b.now out.old out.new j e made.next made.end result }
{
    let p = j + 6;
    if is_next(b, made.next, 0x0118) {
        return fronted(
            made,
            3,
            out,
            |made, out| named(b, made, p, e, out, |made, out| make_directory(b, made, out)),
        );
    }
    fronted(
        made,
        4,
        out,
        |made, out| named(b, made, p, e, out, |made, out| make_linear(b, made, out)),
    )
}

// The directory files for the records of EF.OD from j to end.
fn make_files(b: &[u8], made: Made, j: usize, end: usize, out: &mut [u8]) -> Result<Made, TooLong>
    requires { Steps b.now j end × Making b.now made.next out.old made.end }
    ensures { FilesMade b.now out.old out.new j end made.next made.end result }
{
    let mut done = made;
    let mut k = j;
    while k < end {
        let e = record_end(b, k);
        if is_name(b, k, e) {
            done = make_file(b, done, k, e, out)?;
        }
        k = e;
    }
    Ok(done)
}

// EF.OD's record and the files that it names.
fn make_rest(b: &[u8], made: Made, out: &mut [u8]) -> Result<Made, TooLong>
    requires { Making b.now made.next out.old made.end }
    ensures { Makes b.now out.old out.new made.next made.end (od_and_files (records_from b.now made.next)) result }
{
    let start = made.next;
    let made = fronted(made, 2, out, |made, out| make_od(b, made, out))?;
    make_files(b, made, start, made.next, out)
}

// CIAInfo's record, then these.
fn make_all(b: &[u8], made: Made, out: &mut [u8]) -> Result<Made, TooLong>
    requires { Making b.now made.next out.old made.end }
    ensures { Makes b.now out.old out.new made.next made.end (others_than_dir (records_from b.now made.next)) result }
{
    let made = fronted(made, 1, out, |made, out| make_cia(b, made, out))?;
    make_rest(b, made, out)
}

// EF.DIR's record from the book's 0200, which is at i, then the others once more behind it.
fn make_behind_dir(b: &[u8], i: usize, out: &mut [u8]) -> Result<Made, TooLong>
    requires { (i + 4 ≤ length b.now) × Making b.now i out.old 0 }
    ensures { Fitted out.old out.new 0 (framing 5 (r_dir (records_from b.now i)).bytes ++ (others_than_dir (records_from b.now 0)).bytes) result }
{
    let made = fronted(
        Made { next: i, end: 0 },
        5,
        out,
        |made, out| make_dir(b, made, out),
    )?;
    make_all(b, Made { next: 0, ..made }, out)
}

// The one dump that could have this book: "a dump record 0005" comes first, but its records stand last in the book.
pub fn render_into(b: &[u8], out: &mut [u8]) -> Result<Made, TooLong>
    requires { (length b.now ≤ 131072) × (length out.old ≤ 32768) }
    ensures { Fitted out.old out.new 0 (render (records b.now)) result }
{
    let made = make_all(b, Made { next: 0, end: 0 }, out)?;
    if is_next(b, made.next, 0x0200) {
        return make_behind_dir(b, made.next, out);
    }
    Ok(made)
}
