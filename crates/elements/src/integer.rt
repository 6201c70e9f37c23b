ghost use Rattle.std.specs.Prelude.{◌≡◌, ◌+◌, ◌^◌, ◌<◌, ◌≤◌, length};
ghost use Rattle.elements.specs.Integer.{signed, digit, padded, magnitude, whole, integer, spread, integer_bytes};
ghost use Rattle.elements.specs.Put.{Put};

use crate::answer::Number;
use crate::fault::Fault;
use crate::store::put;

// A byte of a magnitude: as it stands, or complemented where the number is negative.
fn digit(negative: bool, x: u8) -> u8
    ensures { result ≡ digit negative x }
{
    if negative {
        return 255 - x;
    }
    x
}

// Whether the first nine bits are equal, so that the first byte could be left out.
fn padded(x: u8, y: u8) -> bool
    ensures { result ≡ padded x y }
{
    if x == 0 {
        return y < 128;
    }
    if x == 255 {
        return 128 <= y;
    }
    false
}

// Sign and magnitude, of contents of any length.
fn magnitude(c: &[u8], negative: bool) -> Result<Number, Fault>
    ensures { result ≡ magnitude negative c.now }
{
    let mut v: u64 = 0;
    for x in c {
        v = v * 256 + u64::from(digit(negative, *x));
        if 4294967295 <= v {
            return Ok(Number(negative, 4294967295));
        }
    }
    if negative {
        return Ok(Number(true, v as u32 + 1));
    }
    Ok(Number(false, v as u32))
}

// The number, its sign told by the first bit.
fn whole(c: &[u8]) -> Result<Number, Fault>
    requires { 0 < length c.now }
    ensures { result ≡ whole c.now }
{
    if c[0] < 128 {
        return magnitude(c, false);
    }
    magnitude(c, true)
}

// INTEGER or ENUMERATED from its contents.
pub fn integer(c: &[u8]) -> Result<Number, Fault>
    ensures { result ≡ integer c.now }
{
    if c.len() == 0 {
        return Err(Fault::BadInteger);
    }
    if c.len() == 1 {
        return whole(c);
    }
    if padded(c[0], c[1]) {
        return Err(Fault::BadInteger);
    }
    whole(c)
}

// The fewest bytes of w that leave the first bit clear, each complemented where the number is negative.
fn put_spread(out: &mut [u8], o: usize, negative: bool, w: u32) -> usize
    requires { o < 2 ^ 62 }
    ensures { Put out.old out.new o result (spread negative w) }
{
    if w < 128 {
        return put(out, o, digit(negative, w as u8));
    }
    let p = put_spread(out, o, negative, w / 256);
    put(out, p, digit(negative, (w % 256) as u8))
}

// The contents of an INTEGER from its sign and magnitude.
pub fn put_integer(out: &mut [u8], o: usize, negative: bool, m: u32) -> usize
    requires { o < 2 ^ 62 }
    ensures { (result ≤ o + 5) × Put out.old out.new o result (integer_bytes (signed negative m)) }
{
    if negative {
        if 0 < m {
            return put_spread(out, o, true, m - 1);
        }
        return put_spread(out, o, false, 0);
    }
    put_spread(out, o, false, m)
}
