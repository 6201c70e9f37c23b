ghost use Rattle.std.specs.Prelude.{◌≡◌, ◌+◌, ◌-◌, ◌^◌, ◌<◌, ◌≤◌, length, drop};
ghost use Rattle.elements.specs.Bits.{reversed, weigh, bits_of, bits, width, flag_run, flag_bytes};
ghost use Rattle.elements.specs.Put.{Put};

use crate::answer::Number;
use crate::fault::Fault;
use crate::store::put;

// A byte's bits in the other order.
fn reversed(b: u8) -> u8
    ensures { result ≡ reversed b }
{
    b / 128 % 2
        + 2 * (b / 64 % 2)
        + 4 * (b / 32 % 2)
        + 8 * (b / 16 % 2)
        + 16 * (b / 8 % 2)
        + 32 * (b / 4 % 2)
        + 64 * (b / 2 % 2)
        + 128 * (b % 2)
}

// The flag word of the bytes after the first: named bit i becomes 2^i.
fn weigh(c: &[u8]) -> u32
    requires { (0 < length c.now) × (length c.now ≤ 5) }
    ensures { result ≡ weigh (drop 1 c.now) }
{
    let mut v: u32 = 0;
    for i in (1..c.len()).rev() {
        v = v * 256 + u32::from(reversed(c[i]));
    }
    v
}

// The bits, of which the last byte leaves u unused.
fn bits_of(c: &[u8], u: u8, last: u8) -> Result<Number, Fault>
    requires { (u < 8) × (1 < length c.now) }
    ensures { result ≡ bits_of c.now u last }
{
    let w = 1u8 << u;
    if last % w == 0 {
        if last / w % 2 == 1 {
            if c.len() <= 5 {
                return Ok(Number(false, weigh(c)));
            }
            return Err(Fault::ManyBits);
        }
        return Err(Fault::TrailingBits);
    }
    Err(Fault::BadBits)
}

// Named bits from the contents of a BIT STRING.
pub fn bits(c: &[u8]) -> Result<Number, Fault>
    ensures { result ≡ bits c.now }
{
    if c.len() == 0 {
        return Err(Fault::BadBits);
    }
    let u = c[0];
    if 7 < u {
        return Err(Fault::BadBits);
    }
    if c.len() == 1 {
        if u == 0 {
            return Ok(Number(false, 0));
        }
        return Err(Fault::BadBits);
    }
    bits_of(c, u, c[c.len() - 1])
}

// k bytes of a flag word, its lowest bits first.
fn put_run(out: &mut [u8], o: usize, k: u32, w: u32) -> usize
    requires { (o < 2 ^ 62) × (k ≤ 4) }
    ensures { (result ≡ o + k) × Put out.old out.new o result (flag_run k w) }
{
    let mut p = o;
    let mut v = w;
    for _turn in 0..k {
        p = put(out, p, reversed((v % 256) as u8));
        v /= 256;
    }
    p
}

// How many bits hold w: none for 0.
fn width(w: u32) -> u32
    ensures { (result ≡ width w) × (result ≤ 32) }
{
    32 - u32::leading_zeros(w)
}

// The contents of a BIT STRING from its flag word.
pub fn put_flags(out: &mut [u8], o: usize, w: u32) -> usize
    requires { o < 2 ^ 61 }
    ensures { (result ≤ o + 5) × Put out.old out.new o result (flag_bytes w) }
{
    let n = width(w);
    let k = (n + 7) / 8;
    let p = put(out, o, (k * 8 - n) as u8);
    put_run(out, p, k, w)
}
