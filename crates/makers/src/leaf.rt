ghost use Rattle.std.specs.Prelude.{◌≡◌, ◌+◌, ◌*◌, ◌^◌, ◌≤◌, ◌<◌, length, get_or, drop, replicate};
ghost use Rattle.std.proofs.Math.Seq.{slice};
ghost use Rattle.elements.specs.Length.{wrap};
ghost use Rattle.elements.specs.Put.{Put};
ghost use Rattle.elements.specs.Integer.{integer_bytes};
ghost use Rattle.rules.specs.Reading.{count, number, untwos};
ghost use Rattle.rules.specs.Tables.{rows_of, rest_of};
ghost use Rattle.rules.specs.Render.{◌next◌, gives, from, plain, unvalue, r_row, r_rows, r_keep, r_fill};
ghost use Rattle.rules.specs.Book.{records_from};
ghost use Rattle.makers.specs.Making.{Making, Makes};

use crate::made::{Made, TooLong, within};
use elements::{Form, put_boolean, put_flags, put_integer, put_part};
use rules::{Row, Sequence, byte_at, count_of, is_next, of_two, record_end, rest_of, row_of};

// The number in two bytes of a payload, from its k-th on.
pub fn count_at(b: &[u8], p: usize, e: usize, k: usize) -> usize
    requires { (p ≤ e) × (e ≤ length b.now) × (k < 2 ^ 62) }
    ensures { result ≡ count (drop k (slice p e b.now)) }
{
    of_two(byte_at(b, p, e, k), byte_at(b, p, e, k + 1))
}

// The number in four bytes of a payload, the low one first.
fn number_at(b: &[u8], p: usize, e: usize) -> u32
    requires { (p ≤ e) × (e ≤ length b.now) }
    ensures { result ≡ number (slice p e b.now) }
{
    u32::from_le_bytes([
        byte_at(b, p, e, 0),
        byte_at(b, p, e, 1),
        byte_at(b, p, e, 2),
        byte_at(b, p, e, 3),
    ])
}

// The contents of an INTEGER from its two's complement in 32 bits.
fn put_twos(out: &mut [u8], o: usize, v: u32) -> usize
    requires { o ≤ 32768 }
    ensures { Put out.old out.new o result (integer_bytes (untwos v)) }
{
    if v < 2147483648 {
        return put_integer(out, o, false, v);
    }
    put_integer(out, o, true, 4294967295 - v + 1)
}

// The contents that a payload from p to e tells, by its form.
fn put_value(b: &[u8], p: usize, e: usize, form: Form, out: &mut [u8], o: usize) -> usize
    requires { (p ≤ e) × (e ≤ length b.now) × (length b.now ≤ 131072) × (o ≤ 32768) }
    ensures { Put out.old out.new o result (unvalue form (slice p e b.now)) }
{
    match form {
        Form::Integer => put_twos(out, o, number_at(b, p, e)),
        Form::Bits => put_flags(out, o, number_at(b, p, e)),
        Form::Boolean => put_boolean(out, o, u32::from(byte_at(b, p, e, 0))),
        Form::Octets | Form::Text | Form::Time | Form::Null => put_part(out, o, b, p, e),
    }
}

// The bytes of b from p to e as they are.
pub fn make_part(b: &[u8], made: Made, p: usize, e: usize, out: &mut [u8]) -> Result<Made, TooLong>
    requires { (p ≤ e) × (e ≤ length b.now) × Making b.now made.next out.old made.end }
    ensures { Makes b.now out.old out.new made.next made.end (gives (slice p e b.now) (records_from b.now made.next)) result }
{
    let end = put_part(out, made.end, b, p, e);
    if out.len() < end {
        return Err(TooLong);
    }
    Ok(Made { end, ..made })
}

// An element with these bytes.
pub fn part_element(
    b: &[u8],
    made: Made,
    p: usize,
    e: usize,
    tag: u8,
    out: &mut [u8],
) -> Result<Made, TooLong>
    requires { (p ≤ e) × (e ≤ length b.now) × Making b.now made.next out.old made.end }
    ensures { Makes b.now out.old out.new made.next made.end (gives (wrap tag (slice p e b.now)) (records_from b.now made.next)) result }
{
    within(made, tag, out, |made, out| make_part(b, made, p, e, out))
}

// The contents that the next record tells, by their form.
fn make_value(b: &[u8], made: Made, form: Form, out: &mut [u8]) -> Result<Made, TooLong>
    requires { Making b.now made.next out.old made.end }
    ensures { Makes b.now out.old out.new made.next made.end (from (λ k p rs. gives (unvalue form p) rs) (records_from b.now made.next)) result }
{
    if b.len() < made.next + 4 {
        return Ok(made);
    }
    let next = record_end(b, made.next);
    let end = put_value(b, made.next + 4, next, form, out, made.end);
    if out.len() < end {
        return Err(TooLong);
    }
    Ok(Made { next, end })
}

// The next record's payload as it is.
pub fn make_plain(b: &[u8], made: Made, out: &mut [u8]) -> Result<Made, TooLong>
    requires { Making b.now made.next out.old made.end }
    ensures { Makes b.now out.old out.new made.next made.end (plain (records_from b.now made.next)) result }
{
    make_value(b, made, Form::Octets, out)
}

// The same if the next record is of this kind: a rest, a sealed part.
pub fn make_keep(b: &[u8], made: Made, kind: usize, out: &mut [u8]) -> Result<Made, TooLong>
    requires { Making b.now made.next out.old made.end }
    ensures { Makes b.now out.old out.new made.next made.end (r_keep kind (records_from b.now made.next)) result }
{
    if is_next(b, made.next, kind) {
        return make_plain(b, made, out);
    }
    Ok(made)
}

// The fill that the next record tells: its byte, and how many.
fn make_same(b: &[u8], made: Made, out: &mut [u8]) -> Result<Made, TooLong>
    requires { (made.next + 4 ≤ length b.now) × Making b.now made.next out.old made.end }
    ensures { Makes b.now out.old out.new made.next made.end (from (λ k p rs. gives (replicate (count (drop 1 p)) (get_or p 0 0)) rs) (records_from b.now made.next)) result }
{
    let e = record_end(b, made.next);
    let n = count_at(b, made.next + 4, e, 1);
    if out.len() - made.end < n {
        return Err(TooLong);
    }
    let end = made.end + n;
    out[made.end..end].fill(byte_at(b, made.next + 4, e, 0));
    Ok(Made { next: e, end })
}

// The fill that the next record tells, if it is of this kind.
pub fn make_fill(b: &[u8], made: Made, kind: usize, out: &mut [u8]) -> Result<Made, TooLong>
    requires { Making b.now made.next out.old made.end }
    ensures { Makes b.now out.old out.new made.next made.end (r_fill kind (records_from b.now made.next)) result }
{
    if is_next(b, made.next, kind) {
        return make_same(b, made, out);
    }
    Ok(made)
}

// The component of a row, if the next record is of its kind.
fn make_row(b: &[u8], made: Made, r: Row, out: &mut [u8]) -> Result<Made, TooLong>
    requires { Making b.now made.next out.old made.end }
    ensures { Makes b.now out.old out.new made.next made.end (r_row r (records_from b.now made.next)) result }
{
    if is_next(b, made.next, usize::from(r.kind)) {
        return within(
            made,
            r.tag,
            out,
            |made, out| make_value(b, made, r.form, out),
        );
    }
    Ok(made)
}

// The components of a sequence.
pub fn make_rows(b: &[u8], made: Made, q: Sequence, out: &mut [u8]) -> Result<Made, TooLong>
    requires { Making b.now made.next out.old made.end }
    ensures { Makes b.now out.old out.new made.next made.end (r_rows (rows_of q) (records_from b.now made.next)) result }
{
    let mut done = made;
    for k in 0..count_of(q) {
        done = make_row(b, done, row_of(q, k), out)?;
    }
    Ok(done)
}

// The rest of a sequence.
pub fn make_rest_in(b: &[u8], made: Made, q: Sequence, out: &mut [u8]) -> Result<Made, TooLong>
    requires { Making b.now made.next out.old made.end }
    ensures { Makes b.now out.old out.new made.next made.end (r_keep (rest_of q) (records_from b.now made.next)) result }
{
    make_keep(b, made, usize::from(rest_of(q)), out)
}

// The components of a sequence and its rest.
pub fn make_sequence(b: &[u8], made: Made, s: Sequence, out: &mut [u8]) -> Result<Made, TooLong>
    requires { Making b.now made.next out.old made.end }
    ensures { Makes b.now out.old out.new made.next made.end ((r_rows (rows_of s) next r_keep (rest_of s)) (records_from b.now made.next)) result }
{
    let made = make_rows(b, made, s, out)?;
    make_rest_in(b, made, s, out)
}
