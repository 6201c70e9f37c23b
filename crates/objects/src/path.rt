ghost use Rattle.std.specs.Prelude.{◌≡◌};
ghost use Rattle.rules.specs.Parts.{component};
ghost use Rattle.rules.specs.Tables.{rows_of, path_rows_from, path_kind};
ghost use Rattle.rules.specs.Objects.{path_from};
ghost use Rattle.objects.specs.Did.{Did, Paired, InElement, InContainer};

use crate::keep::ended;
use crate::part::{Cursor, due};
use crate::row::some_components;
use elements::{Fault, Header, Refusal};
use rules::{Need, Sequence};

// The rule of a Path at `at`: components that end at i, j and k, and a sequence that was read up to n.
fn paired(at: usize, i: usize, j: usize, k: usize, n: Cursor) -> Result<Cursor, Refusal>
    ensures { Paired at i j k n.dump n.book result }
{
    if (i == j) == (j == k) {
        return Ok(n);
    }
    Err(Refusal(Fault::PathPair, at))
}

// A Path by its table: index and length stand both or neither.
pub fn path(s: &[u8], q: Sequence, x: Header, at: Cursor, out: &mut [u8]) -> Result<Cursor, Refusal>
    requires { (rows_of q ≡ path_rows_from (path_kind q)) × InElement s.now at.dump x.1 x.2 at.book }
    ensures { Did out.old out.new at.book x.1 x.2 (path_from s.now (path_kind q) at.dump x.1 x.2) result }
{
    let inside = Cursor { dump: x.1, ..at };
    let i = some_components(s, q, 0, 1, x.2, inside, out)?;
    let j = some_components(s, q, 1, 2, x.2, i, out)?;
    let k = some_components(s, q, 2, 3, x.2, j, out)?;
    let n = ended(s, x.2, k)?;
    paired(at.dump, i.dump, j.dump, k.dump, n)
}

// A Path of that table and tag where it is due, or may stand.
pub fn due_path(
    s: &[u8],
    q: Sequence,
    tag: u8,
    need: Need,
    end: usize,
    at: Cursor,
    out: &mut [u8],
) -> Result<Cursor, Refusal>
    requires { (rows_of q ≡ path_rows_from (path_kind q)) × InContainer s.now end at.dump at.book }
    ensures { Did out.old out.new at.book at.dump end (component s.now tag need (path_from s.now (path_kind q)) end at.dump) result }
{
    due(
        s,
        tag,
        need,
        end,
        at,
        out,
        |x, _, out| path(s, q, x, at, out),
    )
}
