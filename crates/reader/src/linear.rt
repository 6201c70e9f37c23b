ghost use Rattle.std.specs.Prelude.{◌+◌, ◌*◌, ◌≤◌};
ghost use Rattle.rules.specs.Files.{linear};
ghost use Rattle.objects.specs.Did.{InContainer};
ghost use Rattle.cards.specs.Fits.{Fit, Sorted};
ghost use Rattle.files.specs.Filing.{DidObjects};
ghost use Rattle.reader.specs.Linear.{records_in, by_kind};

use elements::Refusal;
use files::{Holder, held};
use objects::{Cursor, put_bare};
use rules::{Site, word};

// The records of a record file in turn, after k objects.
fn records(
    s: &[u8],
    site: Site,
    entry: u8,
    k: usize,
    end: usize,
    from: Cursor,
    out: &mut [u8],
    marks: &mut [u32],
) -> Result<(Cursor, usize), Refusal>
    requires { (k ≤ 128) × Fit s.now end from.dump × InContainer s.now end from.dump from.book }
    ensures { DidObjects out.old out.new marks.old marks.new from.book from.dump end k (records_in s.now site entry k end from.dump) result }
{
    let mut j = k;
    let mut at = from;
    while at.dump < end {
        let n = at.dump + 2;
        let e = n + word(s, at.dump);
        let inside = Cursor {
            dump: n,
            book: at.book,
        };
        let (next, c) = held(
            s,
            Holder::Record,
            0x011a,
            site,
            entry,
            j,
            e,
            inside,
            out,
            marks,
        )?;
        j = c;
        at = next;
    }
    Ok((at, j))
}

// A record file, the nth: its records behind its 0119.
fn linear(
    s: &[u8],
    n: u16,
    entry: u8,
    k: usize,
    end: usize,
    at: Cursor,
    out: &mut [u8],
    marks: &mut [u32],
) -> Result<(Cursor, usize), Refusal>
    requires { (k ≤ 128) × Fit s.now end at.dump × (at.book + 4 ≤ 8 * at.dump + 131072) × InContainer s.now end at.dump at.book }
    ensures { DidObjects out.old out.new marks.old marks.new at.book at.dump end k (linear s.now n entry k end at.dump) result }
{
    let book = put_bare(out, at.book, 0x0119);
    let site = Site {
        number: n,
        start: at.dump,
    };
    records(
        s,
        site,
        entry,
        k,
        end,
        Cursor {
            dump: at.dump,
            book,
        },
        out,
        marks,
    )
}

// The nth file, of this kind, after k objects: transparent, or of records.
pub fn file_of(
    s: &[u8],
    kind: usize,
    n: u16,
    entry: u8,
    k: usize,
    end: usize,
    at: Cursor,
    out: &mut [u8],
    marks: &mut [u32],
) -> Result<(Cursor, usize), Refusal>
    requires { (k ≤ 128) × Sorted s.now kind end at.dump × (at.book + 4 ≤ 8 * at.dump + 131072) × InContainer s.now end at.dump at.book }
    ensures { DidObjects out.old out.new marks.old marks.new at.book at.dump end k (by_kind s.now kind n entry k end at.dump) result }
{
    if kind == 3 {
        let site = Site {
            number: n,
            start: at.dump,
        };
        return held(s, Holder::File, 0x0118, site, entry, k, end, at, out, marks);
    }
    linear(s, n, entry, k, end, at, out, marks)
}
