ghost use Rattle.std.specs.Prelude.{◌≡◌, ◌≤◌, length};
ghost use Rattle.rules.specs.declared.table.Need.TheVariants.{Required};
ghost use Rattle.rules.specs.Reading.{Body};
ghost use Rattle.rules.specs.Parts.{component};
ghost use Rattle.objects.specs.Did.{Did, Forward, Lacks, Dues, Callable, Follows, InContainer};

use elements::{Fault, Header, Refusal, header};
use rules::Need;

// How far reading has come: the next place in the dump, and in the book.
#[derive(Clone, Copy, Debug, PartialEq, Eq)]
pub struct Cursor {
    pub dump: usize,
    pub book: usize,
}

// What to say where a component lacks.
fn lacking(need: Need, f: Fault, p: usize) -> Result<Option<Header>, Refusal>
    ensures { Lacks need f p result }
{
    match need {
        Need::Required => Err(Refusal(f, p)),
        Need::Optional | Need::Default(_) => Ok(None),
    }
}

// Whether the component with this tag stands at `at`: its header.
pub fn stands(
    s: &[u8],
    tag: u8,
    need: Need,
    end: usize,
    at: usize,
) -> Result<Option<Header>, Refusal>
    requires { end ≤ length s.now }
    ensures { Dues s.now tag need end at result }
{
    if end <= at {
        return lacking(need, Fault::Missing, end);
    }
    let x = header(s, at, end)?;
    if x.0 == tag {
        return Ok(Some(x));
    }
    lacking(need, Fault::NotDue, at)
}

// A component where it is due: its body is given its header and where its contents start.
pub fn due<F: FnOnce(Header, Cursor, &mut [u8]) -> Result<Cursor, Refusal>>(
    s: &[u8],
    tag: u8,
    need: Need,
    end: usize,
    at: Cursor,
    out: &mut [u8],
    body: F,
) -> Result<Cursor, Refusal>
    requires within { InContainer s.now end at.dump at.book }
    requires callable { Callable (F.pre body) s.now out.old tag at }
    ensures { (g : Body) → Follows (F.post body) tag at g → Did out.old out.new at.book at.dump end (component s.now tag need g end at.dump) result × (need ≡ Required → Forward at.dump result) }
{
    match stands(s, tag, need, end, at.dump)? {
        None => Ok(at),
        Some(x) => body(x, Cursor { dump: x.1, ..at }, out),
    }
}
