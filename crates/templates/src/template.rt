ghost use Rattle.std.specs.Prelude.{◌≡◌, ◌+◌, ◌*◌, ◌≤◌, length};
ghost use Rattle.std.proofs.Math.Seq.{slice};
ghost use Rattle.rules.specs.declared.table.Need.TheVariants.{Optional};
ghost use Rattle.rules.specs.Parts.{component};
ghost use Rattle.rules.specs.Rulings.{ours};
ghost use Rattle.elements.specs.Choice.{pick};
ghost use Rattle.objects.specs.Did.{Did, Stays, InContainer};
ghost use Rattle.templates.specs.Templates.{opened, opened_body, ours_at, unreached_by, settled, from_rest, from_inner, from_path, from_name, template};

use crate::ddo::discretionary;
use elements::{Fault, Header, Refusal, header};
use objects::{Cursor, due, put_bare, put_one, rest_in, some_components};
use rules::{Need, Sequence};

// "the fixed start that clause 7.5.5 gives".
const START: [u8; 5] = [0xe8, 0x28, 0xbd, 0x08, 0x0f];

// Whether s from a to e begins so.
fn starts(s: &[u8], a: usize, e: usize) -> bool
    requires { (a ≤ e) × (e ≤ length s.now) × (length s.now ≤ 32768) }
    ensures { result ≡ ours (slice a e s.now) }
{
    for i in 0..5 {
        if e <= a + i {
            return false;
        }
        if s[a + i] != START[i] {
            return false;
        }
    }
    true
}

// "The answer says which templates are ours": of the element at `at`.
fn is_ours(s: &[u8], end: usize, at: usize) -> bool
    requires { (end ≤ length s.now) × (length s.now ≤ 32768) }
    ensures { result ≡ ours_at s.now end at }
{
    match header(s, at, end) {
        Ok(x) => starts(s, x.1, x.2),
        Err(_) => false,
    }
}

// The contents of a 73 behind its record.
fn opened(s: &[u8], end: usize, at: Cursor, out: &mut [u8]) -> Result<Cursor, Refusal>
    requires { (at.book + 4 ≤ 8 * at.dump + 131072) × InContainer s.now end at.dump at.book }
    ensures { Did out.old out.new at.book at.dump end (opened s.now end at.dump) result }
{
    let book = put_bare(out, at.book, 0x0205);
    discretionary(
        s,
        end,
        Cursor {
            dump: at.dump,
            book,
        },
        out,
    )
}

// A 73, where it may stand.
fn due_ddo(s: &[u8], end: usize, at: Cursor, out: &mut [u8]) -> Result<Cursor, Refusal>
    requires { InContainer s.now end at.dump at.book }
    ensures { Did out.old out.new at.book at.dump end (component s.now 0x73 Optional (opened_body s.now) end at.dump) result }
{
    due(s, 0x73, Need::Optional, end, at, out, |x, inside, out| {
        opened(s, x.2, inside, out)
    })
}

// Whether it is ours and can't be reached: its label ends at i, its path at j, its 73 at k.
fn is_unreached(mine: bool, i: usize, j: usize, k: usize) -> bool
    ensures { result ≡ unreached_by mine i j k }
{
    if mine {
        if i == j {
            return j == k;
        }
    }
    false
}

// "0201, one byte, 01 ours or 00 not".
fn flag(mine: bool) -> u8
    ensures { result ≡ pick mine 1 0 }
{
    if mine {
        return 1;
    }
    0
}

// Its identifier and label, its path, its 73 and its rest; "5 where a template of ours has neither path nor 73", once all of it was read.
fn from_name(
    s: &[u8],
    mine: bool,
    end: usize,
    at: Cursor,
    out: &mut [u8],
) -> Result<Cursor, Refusal>
    requires { InContainer s.now end at.dump at.book }
    ensures { Did out.old out.new at.book at.dump end (from_name s.now mine end at.dump) result }
{
    let label = some_components(s, Sequence::Template, 0, 2, end, at, out)?;
    let path = some_components(s, Sequence::Template, 2, 3, end, label, out)?;
    let inner = due_ddo(s, end, path, out)?;
    let last = rest_in(s, Sequence::Template, end, inner, out)?;
    if is_unreached(mine, label.dump, path.dump, inner.dump) {
        return Err(Refusal(Fault::Missing, end));
    }
    Ok(last)
}

// "application templates 61 { identifier 4F of 1 to 16 bytes, label 50?, path 51? of up to 64, 73?, rest }": what stands inside.
pub fn template(s: &[u8], end: usize, at: Cursor, out: &mut [u8]) -> Result<Cursor, Refusal>
    requires { (at.book + 5 ≤ 8 * at.dump + 131072) × InContainer s.now end at.dump at.book }
    ensures { Did out.old out.new at.book at.dump end (template s.now end at.dump) result }
{
    let mine = is_ours(s, end, at.dump);
    let book = put_one(out, at.book, 0x0201, flag(mine));
    from_name(
        s,
        mine,
        end,
        Cursor {
            dump: at.dump,
            book,
        },
        out,
    )
}
