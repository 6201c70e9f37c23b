ghost use Rattle.std.specs.Prelude.{◌≡◌, ◌+◌, ◌≤◌, length};
ghost use Rattle.elements.specs.Length.{shortest, wrap};
ghost use Rattle.makers.specs.Making.{Moved, Opened, Ended, Closed, MayMake, EndsInside, Enclosed};

use elements::put_header;

// How far making has come: where the next record starts, and where the bytes end.
#[derive(Clone, Copy, Debug, PartialEq, Eq)]
pub struct Made {
    pub next: usize,
    pub end: usize,
}

// The bytes are too long for a dump.
#[derive(Clone, Copy, Debug, PartialEq, Eq)]
pub struct TooLong;

// What stands from `from` to `to` goes up by so many places.
fn move_up(out: &mut [u8], from: usize, to: usize, by: usize)
    requires { (from ≤ to) × (to + by ≤ length out.old) × (length out.old ≤ 32768) }
    ensures { Moved out.old out.new from to by }
{
    if by == 0 {
        return;
    }
    for k in (from..to).rev() {
        out[k + by] = out[k];
    }
}

// The bytes of the header of an element with so many bytes of contents.
fn header_size(n: usize) -> usize
    ensures { (result ≡ 1 + length (shortest n)) × (2 ≤ result) × (result ≤ 4) }
{
    if n < 128 {
        return 2;
    }
    if n < 256 {
        return 3;
    }
    4
}

// Where contents start that have k bytes in front of them; the end, where there is no room for these.
pub fn opened(made: Made, k: usize, len: usize) -> Made
    requires { made.end ≤ len }
    ensures { (result.next ≡ made.next) × (result.end ≤ len) × Opened len made.end k result.end }
{
    if len - made.end < k {
        return Made { end: len, ..made };
    }
    Made {
        end: made.end + k,
        ..made
    }
}

// The header of an element at o goes in front of its contents, which were made behind its two first bytes.
pub fn closed(
    out: &mut [u8],
    o: usize,
    tag: u8,
    made: Result<Made, TooLong>,
) -> Result<Made, TooLong>
    requires { (o ≤ length out.old) × (length out.old ≤ 32768) × Ended (length out.old) made }
    ensures { Closed out.old out.new o 2 (wrap tag) made result }
{
    let Made { next, end } = made?;
    if end < o + 2 {
        return Err(TooLong);
    }
    let c = end - (o + 2);
    let by = header_size(c) - 2;
    if out.len() < end + by {
        return Err(TooLong);
    }
    move_up(out, o + 2, end, by);
    put_header(out, o, tag, c);
    Ok(Made {
        next,
        end: end + by,
    })
}

// An element: what `inside` makes, with its header in front.
pub fn within<F: FnOnce(Made, &mut [u8]) -> Result<Made, TooLong>>(
    made: Made,
    tag: u8,
    out: &mut [u8],
    inside: F,
) -> Result<Made, TooLong>
    requires room { (made.end ≤ length out.old) × (length out.old ≤ 32768) }
    requires may_make { MayMake (F.pre inside) made.next (length out.old) }
    requires ends_inside { EndsInside (F.post inside) }
    ensures { Enclosed (F.post inside) out.old out.new made.next made.end 2 (wrap tag) result }
{
    let o = made.end;
    let made = inside(opened(made, 2, out.len()), out);
    closed(out, o, tag, made)
}
