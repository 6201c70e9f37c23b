ghost use Rattle.std.specs.Prelude.{◌≡◌, ◌&&◌, ◌-◌, ltb, eqb};
ghost use Rattle.rules.specs.declared.table.Sort.TheVariants.{Not};
ghost use Rattle.rules.specs.Parts.{repeat, to_end};
ghost use Rattle.rules.specs.Tables.{tag_of, sort_by};
ghost use Rattle.rules.specs.Objects.{identified, condition_as, condition, listed};
ghost use Rattle.objects.specs.Did.{Did, DidMany, Forward, InElement, InContainer};

use crate::keep::{ended, sealed};
use crate::part::Cursor;
use crate::records::{put_bare, put_two};
use elements::{Fault, Header, Refusal, header, put_le16, put_record};
use rules::Sort;

// What a condition is, by its tag.
fn sort_of(t: u8) -> Sort
    ensures { result ≡ sort_by tag_of t }
{
    match t {
        0x05 => Sort::Always,
        0x04 => Sort::Identifier,
        0xa0 => Sort::Not,
        0xa1 => Sort::And,
        0xa2 => Sort::Or,
        _ => Sort::Other,
    }
}

// A NULL that is not empty.
fn is_bad_null(x: Header) -> bool
    ensures { result ≡ (eqb x.0 5 && ltb x.1 x.2) }
{
    x.0 == 5 && x.1 < x.2
}

// "04 identifier": 0 to 255 bytes.
fn identifier(s: &[u8], x: Header, at: Cursor, out: &mut [u8]) -> Result<Cursor, Refusal>
    requires { InElement s.now at.dump x.1 x.2 at.book }
    ensures { Did out.old out.new at.book x.1 x.2 (identified s.now at.dump x.1 x.2) result }
{
    if x.2 - x.1 <= 255 {
        let book = put_record(out, at.book, 0x0127, s, x.1, x.2);
        return Ok(Cursor { dump: x.2, book });
    }
    Err(Refusal(Fault::BadSize, at.dump))
}

// The condition due at `at`, after k of its list, with so many levels left.
#[cycle(condition_tree)]
pub fn condition(
    s: &[u8],
    levels: usize,
    k: usize,
    end: usize,
    at: Cursor,
    out: &mut [u8],
) -> Result<Cursor, Refusal>
    requires { InContainer s.now end at.dump at.book }
    ensures { Did out.old out.new at.book at.dump end (condition s.now levels k end at.dump) result × Forward at.dump result }
{
    if levels == 0 {
        if at.dump < end {
            return Err(Refusal(Fault::TooDeep, at.dump));
        }
        return Err(Refusal(Fault::Missing, end));
    }
    let x = header(s, at.dump, end)?;
    if is_bad_null(x) {
        return Err(Refusal(Fault::BadNull, at.dump));
    }
    if 255 <= k {
        return Err(Refusal(Fault::ManyConditions, at.dump));
    }
    condition_as(s, levels - 1, sort_of(x.0), x, at, out)
}

// A condition of a sort; what is inside it has so many levels left.
#[cycle(condition_tree)]
fn condition_as(
    s: &[u8],
    levels: usize,
    y: Sort,
    x: Header,
    at: Cursor,
    out: &mut [u8],
) -> Result<Cursor, Refusal>
    requires { InElement s.now at.dump x.1 x.2 at.book }
    ensures { Did out.old out.new at.book x.1 x.2 (condition_as s.now levels y x.0 at.dump x.1 x.2) result }
{
    match y {
        Sort::Always => {
            let book = put_bare(out, at.book, 0x0126);
            Ok(Cursor { dump: x.2, book })
        }
        Sort::Identifier => identifier(s, x, at, out),
        Sort::Not => negated(s, levels, x, at, out),
        Sort::And => listed(s, levels, 0x012a, x, at, out),
        Sort::Or => listed(s, levels, 0x012b, x, at, out),
        Sort::Other => sealed(s, 0x0128, x, at, out),
    }
}

// "A0 not, one inside".
#[cycle(condition_tree)]
fn negated(
    s: &[u8],
    levels: usize,
    x: Header,
    at: Cursor,
    out: &mut [u8],
) -> Result<Cursor, Refusal>
    requires { InElement s.now at.dump x.1 x.2 at.book }
    ensures { Did out.old out.new at.book x.1 x.2 (condition_as s.now levels Not 0 at.dump x.1 x.2) result }
{
    let book = put_bare(out, at.book, 0x0129);
    let at = condition(s, levels, 0, x.2, Cursor { dump: x.1, book }, out)?;
    ended(s, x.2, at)
}

// A list of conditions, "each 2 to 255 inside, 2-byte count": the count is put when it is known.
#[cycle(condition_tree)]
fn listed(
    s: &[u8],
    levels: usize,
    kind: u16,
    x: Header,
    at: Cursor,
    out: &mut [u8],
) -> Result<Cursor, Refusal>
    requires { InElement s.now at.dump x.1 x.2 at.book }
    ensures { Did out.old out.new at.book x.1 x.2 (listed kind x.2 (repeat to_end (λ j f i. condition s.now levels j f i) (x.2 - x.1) 0 x.2 x.1)) result }
{
    let book = put_two(out, at.book, kind, 0, 0);
    let (n, count) = conditions(s, levels, x.2, Cursor { dump: x.1, book }, out)?;
    if count < 2 {
        return Err(Refusal(Fault::Missing, x.2));
    }
    put_le16(out, at.book + 4, count as u16);
    Ok(n)
}

// The conditions of a list, to its end; and how many they are.
#[cycle(condition_tree)]
fn conditions(
    s: &[u8],
    levels: usize,
    end: usize,
    at: Cursor,
    out: &mut [u8],
) -> Result<(Cursor, usize), Refusal>
    requires { InContainer s.now end at.dump at.book }
    ensures { DidMany out.old out.new at.book at.dump end (repeat to_end (λ j f i. condition s.now levels j f i) (end - at.dump) 0 end at.dump) result }
{
    let mut count = 0;
    let mut n = at;
    while n.dump < end {
        n = condition(s, levels, count, end, n, out)?;
        count += 1;
    }
    Ok((n, count))
}
