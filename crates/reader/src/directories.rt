ghost use Rattle.std.specs.Prelude.{◌+◌, ◌*◌, ◌≤◌, length};
ghost use Rattle.files.specs.Scan.{Holds};
ghost use Rattle.reader.specs.Twelve.{Sound};
ghost use Rattle.reader.specs.Directories.{FilesTold};

use crate::frame::named_frame;
use crate::linear::file_of;
use elements::Refusal;
use files::next_name;
use objects::Cursor;
use rules::word;

// The files in turn: those of s from `at` on, by the names that the book has from i to end; their records go from o on, after k objects. Where
// the book ends, and how many objects there are.
pub fn directories(
    s: &[u8],
    at: usize,
    i: usize,
    end: usize,
    k: usize,
    out: &mut [u8],
    o: usize,
    marks: &mut [u32],
) -> Result<(usize, usize), Refusal>
    requires { Holds out.old i end × Sound s.now at × (at ≤ length s.now) × (length s.now ≤ 32768) × (k ≤ 128) × (end ≤ o) × (o ≤ 8 * at + 131072) }
    ensures { FilesTold s.now at out.old out.new marks.old marks.new i end o k result }
{
    let mut m = i;
    let mut n = at;
    let mut p = o;
    let mut c = k;
    let mut f: u16 = 1;
    while let Some(j) = next_name(out, m, end) {
        if s.len() <= n {
            return Ok((p, c));
        }
        let file = named_frame(s, n)?;
        m = j + 2 + word(out, j);
        let entry = out[j + 4];
        let at = Cursor {
            dump: file.start,
            book: p,
        };
        let (next, d) = file_of(s, file.kind, f, entry, c, file.stop, at, out, marks)?;
        p = next.book;
        c = d;
        f += 1;
        n = file.stop;
    }
    Ok((p, c))
}
