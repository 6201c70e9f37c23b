ghost use Rattle.std.specs.Prelude.{◌≡◌, [], ◌≤◌, length};
ghost use Rattle.rules.specs.declared.table.Need.TheVariants.{Optional};
ghost use Rattle.rules.specs.Parts.{component, ended, rest, sealed, inner_run};
ghost use Rattle.rules.specs.Tables.{rest_of, kept_of};
ghost use Rattle.objects.specs.Did.{Did, Stays, InElement, InContainer};

use crate::part::{Cursor, due};
use elements::{Fault, Header, Refusal, header, put_record};
use rules::{Need, Sequence, kept_out, rest_of};

// Nothing more is due: what was put stays put.
pub fn ended(s: &[u8], end: usize, at: Cursor) -> Result<Cursor, Refusal>
    requires { InContainer s.now end at.dump at.book }
    ensures { Stays at.book at.dump end (ended s.now end at.dump) result }
{
    if end <= at.dump {
        return Ok(at);
    }
    header(s, at.dump, end)?;
    Err(Refusal(Fault::OneMore, at.dump))
}

// The rest of a sequence: sealed elements, none with a tag that is kept out.
pub fn rest(
    s: &[u8],
    kind: u16,
    tags: &[u8],
    end: usize,
    at: Cursor,
    out: &mut [u8],
) -> Result<Cursor, Refusal>
    requires { InContainer s.now end at.dump at.book }
    ensures { Did out.old out.new at.book at.dump end (rest s.now kind tags.now end at.dump) result }
{
    if end <= at.dump {
        return Ok(at);
    }
    elements::sealed(s, at.dump, end, 16, tags)?;
    let book = put_record(out, at.book, kind, s, at.dump, end);
    Ok(Cursor { dump: end, book })
}

// The rest of a sequence whose components stand in a table.
pub fn rest_in(
    s: &[u8],
    q: Sequence,
    end: usize,
    at: Cursor,
    out: &mut [u8],
) -> Result<Cursor, Refusal>
    requires { InContainer s.now end at.dump at.book }
    ensures { Did out.old out.new at.book at.dump end (rest s.now (rest_of q) (kept_of q) end at.dump) result }
{
    if end <= at.dump {
        return Ok(at);
    }
    let mut tags = [0; 9];
    let n = kept_out(q, &mut tags);
    rest(s, rest_of(q), &tags[..n], end, at, out)
}

// The contents of a sealed element on the first level: where they end.
pub fn inner_run(s: &[u8], x: Header) -> Result<usize, Refusal>
    requires { x.2 ≤ length s.now }
    ensures { result ≡ inner_run s.now x.0 x.1 x.2 }
{
    if x.0 / 32 % 2 == 1 {
        return elements::sealed(s, x.1, x.2, 15, &[]);
    }
    Ok(x.2)
}

// A sealed element, kept whole.
pub fn sealed(s: &[u8], kind: u16, x: Header, at: Cursor, out: &mut [u8]) -> Result<Cursor, Refusal>
    requires { InElement s.now at.dump x.1 x.2 at.book }
    ensures { Did out.old out.new at.book x.1 x.2 (sealed s.now kind [] x.0 at.dump x.1 x.2) result }
{
    inner_run(s, x)?;
    let book = put_record(out, at.book, kind, s, at.dump, x.2);
    Ok(Cursor { dump: x.2, book })
}

// The same of one tag, where it may stand.
pub fn sealed_if(
    s: &[u8],
    tag: u8,
    kind: u16,
    end: usize,
    at: Cursor,
    out: &mut [u8],
) -> Result<Cursor, Refusal>
    requires { InContainer s.now end at.dump at.book }
    ensures { Did out.old out.new at.book at.dump end (component s.now tag Optional (sealed s.now kind [] tag) end at.dump) result }
{
    due(
        s,
        tag,
        Need::Optional,
        end,
        at,
        out,
        |x, _, out| sealed(s, kind, x, at, out),
    )
}
