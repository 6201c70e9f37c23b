ghost use Rattle.std.specs.Prelude.{◌≡◌, ◌+◌, ◌*◌, ◌≤◌, ◌<◌, [], length};
ghost use Rattle.std.proofs.Math.Seq.{slice};
ghost use Rattle.elements.specs.declared.answer.Form.TheVariants.{Integer, Boolean};
ghost use Rattle.elements.specs.Integer.{signed};
ghost use Rattle.rules.specs.Reading.{twos};
ghost use Rattle.rules.specs.Parts.{is_default, in_bounds, sized, payload, valued, component, row_body, components};
ghost use Rattle.rules.specs.Tables.{rows_of};
ghost use Rattle.objects.specs.Did.{Did, InElement, InContainer};

use crate::part::{Cursor, due};
use crate::records::put_one;
use elements::{Fault, Form, Header, Number, Read, Refusal, put_number, put_record, value_at};
use rules::{Need, Row, Sequence, count_of, row_of};

// "A component equal to its DEFAULT is not written": whether a number is the default.
fn is_default(need: Need, n: Number) -> bool
    ensures { result ≡ is_default need n.0 n.1 }
{
    match need {
        Need::Required | Need::Optional => false,
        Need::Default(d) => !n.0 && n.1 == d,
    }
}

// The number of a sign and a magnitude.
fn signed(n: Number) -> i64
    ensures { result ≡ signed n.0 n.1 }
{
    if n.0 {
        return -i64::from(n.1);
    }
    i64::from(n.1)
}

// Whether a number is in the bounds of a row.
fn in_bounds(r: Row, n: Number) -> bool
    ensures { result ≡ in_bounds r n.0 n.1 }
{
    let z = signed(n);
    i64::from(r.low) <= z && z <= i64::from(r.high)
}

// Its two's complement in 32 bits.
fn twos(n: Number) -> u32
    ensures { result ≡ twos (signed n.0 n.1) }
{
    if n.0 {
        return n.1.wrapping_neg();
    }
    n.1
}

// The record of a number, of an element that ends at `end`.
fn number_row(r: Row, n: Number, end: usize, at: Cursor, out: &mut [u8]) -> Result<Cursor, Refusal>
    requires { (at.dump + 2 ≤ end) × (end ≤ 32768) × (at.book ≤ 8 * at.dump + 131072) }
    ensures { Did out.old out.new at.book at.dump end (valued r at.dump end (payload Integer r [] n.0 n.1)) result }
{
    if is_default(r.need, n) {
        return Err(Refusal(Fault::DefaultWritten, at.dump));
    }
    if in_bounds(r, n) {
        let book = put_number(out, at.book, r.kind, twos(n));
        return Ok(Cursor { dump: end, book });
    }
    Err(Refusal(Fault::OutOfRange, at.dump))
}

// The record of a BOOLEAN: one byte.
fn boolean_row(r: Row, n: Number, end: usize, at: Cursor, out: &mut [u8]) -> Result<Cursor, Refusal>
    requires { (n.1 < 256) × (at.dump + 2 ≤ end) × (end ≤ 32768) × (at.book ≤ 8 * at.dump + 131072) }
    ensures { Did out.old out.new at.book at.dump end (valued r at.dump end (payload Boolean r [] n.0 n.1)) result }
{
    if is_default(r.need, n) {
        return Err(Refusal(Fault::DefaultWritten, at.dump));
    }
    let book = put_one(out, at.book, r.kind, n.1 as u8);
    Ok(Cursor { dump: end, book })
}

// The record of bytes, where what was told of them is in the bounds of the row.
fn bytes_row(
    s: &[u8],
    r: Row,
    n: Number,
    x: Header,
    at: Cursor,
    out: &mut [u8],
) -> Result<Cursor, Refusal>
    requires { InElement s.now at.dump x.1 x.2 at.book }
    ensures { Did out.old out.new at.book at.dump x.2 (valued r at.dump x.2 (sized r (slice x.1 x.2 s.now) n.0 n.1)) result }
{
    if in_bounds(r, n) {
        let book = put_record(out, at.book, r.kind, s, x.1, x.2);
        return Ok(Cursor { dump: x.2, book });
    }
    Err(Refusal(Fault::BadSize, at.dump))
}

// The record of what an element's contents say.
fn judged(
    s: &[u8],
    r: Row,
    n: Number,
    x: Header,
    at: Cursor,
    out: &mut [u8],
) -> Result<Cursor, Refusal>
    requires { (r.form ≡ Boolean → n.1 < 256) × InElement s.now at.dump x.1 x.2 at.book }
    ensures { Did out.old out.new at.book at.dump x.2 (valued r at.dump x.2 (payload r.form r (slice x.1 x.2 s.now) n.0 n.1)) result }
{
    match r.form {
        Form::Integer => number_row(r, n, x.2, at, out),
        Form::Boolean => boolean_row(r, n, x.2, at, out),
        Form::Octets | Form::Text => bytes_row(s, r, n, x, at, out),
        Form::Bits => {
            let book = put_number(out, at.book, r.kind, n.1);
            Ok(Cursor { dump: x.2, book })
        }
        Form::Time | Form::Null => {
            let book = put_record(out, at.book, r.kind, s, x.1, x.2);
            Ok(Cursor { dump: x.2, book })
        }
    }
}

// A row's element.
fn row_body(s: &[u8], r: Row, x: Header, at: Cursor, out: &mut [u8]) -> Result<Cursor, Refusal>
    requires { InElement s.now at.dump x.1 x.2 at.book }
    ensures { Did out.old out.new at.book x.1 x.2 (row_body s.now r at.dump x.1 x.2) result }
{
    let Read(n, _) = value_at(r.form, s, at.dump, x.1, x.2)?;
    judged(s, r, n, x, at, out)
}

// The component of a row, where it is due.
fn component(s: &[u8], r: Row, end: usize, at: Cursor, out: &mut [u8]) -> Result<Cursor, Refusal>
    requires { InContainer s.now end at.dump at.book }
    ensures { Did out.old out.new at.book at.dump end (component s.now r.tag r.need (row_body s.now r) end at.dump) result }
{
    due(
        s,
        r.tag,
        r.need,
        end,
        at,
        out,
        |x, _, out| row_body(s, r, x, at, out),
    )
}

// The components of a sequence from the i-th up to the last-th, in their order.
pub fn some_components(
    s: &[u8],
    q: Sequence,
    i: usize,
    last: usize,
    end: usize,
    at: Cursor,
    out: &mut [u8],
) -> Result<Cursor, Refusal>
    requires { (i ≤ last) × (last ≤ length (rows_of q)) × InContainer s.now end at.dump at.book }
    ensures { Did out.old out.new at.book at.dump end (components s.now (slice i last (rows_of q)) end at.dump) result }
{
    let mut n = at;
    for k in i..last {
        n = component(s, row_of(q, k), end, n, out)?;
    }
    Ok(n)
}

// The components of a sequence, in their order.
pub fn components(
    s: &[u8],
    q: Sequence,
    end: usize,
    at: Cursor,
    out: &mut [u8],
) -> Result<Cursor, Refusal>
    requires { InContainer s.now end at.dump at.book }
    ensures { Did out.old out.new at.book at.dump end (components s.now (rows_of q) end at.dump) result }
{
    some_components(s, q, 0, count_of(q), end, at, out)
}
