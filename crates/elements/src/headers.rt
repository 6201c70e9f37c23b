ghost use Rattle.std.specs.Prelude.{◌≡◌, ◌≤◌, length};
ghost use Rattle.elements.specs.Header.{header, high_tag, further, length_at, long1, long2, long2_of, fitted};

use crate::answer::{Header, Refusal};
use crate::fault::Fault;

// n bytes of contents from q on.
fn fitted(at: usize, end: usize, b: u8, q: usize, n: usize) -> Result<Header, Refusal>
    requires { q ≤ end }
    ensures { result ≡ fitted at end b q n }
{
    if n <= end - q {
        return Ok(Header(b, q, q + n));
    }
    Err(Refusal(Fault::LongLength, at))
}

// 81 xx: xx at p.
fn long1(s: &[u8], at: usize, end: usize, b: u8, p: usize) -> Result<Header, Refusal>
    requires { end ≤ length s.now }
    ensures { result ≡ long1 s.now at end b p }
{
    if end <= p {
        return Err(Refusal(Fault::CutLength, at));
    }
    let x = usize::from(s[p]);
    if x < 128 {
        return Err(Refusal(Fault::BadLength, at));
    }
    fitted(at, end, b, p + 1, x)
}

// 82 xx yy: the contents start at q.
fn long2_of(at: usize, end: usize, b: u8, q: usize, x: u8, y: u8) -> Result<Header, Refusal>
    requires { q ≤ end }
    ensures { result ≡ long2_of at end b q x y }
{
    let n = (x as usize) * 256 + y as usize;
    if n < 256 {
        return Err(Refusal(Fault::BadLength, at));
    }
    fitted(at, end, b, q, n)
}

// 82 xx yy: xx at p.
fn long2(s: &[u8], at: usize, end: usize, b: u8, p: usize) -> Result<Header, Refusal>
    requires { (end ≤ length s.now) × (p ≤ end) }
    ensures { result ≡ long2 s.now at end b p }
{
    if end - p < 2 {
        return Err(Refusal(Fault::CutLength, at));
    }
    long2_of(at, end, b, p + 2, s[p], s[p + 1])
}

// The length field at p, of the element at `at` whose first tag byte is b.
fn length_at(s: &[u8], at: usize, end: usize, b: u8, p: usize) -> Result<Header, Refusal>
    requires { end ≤ length s.now }
    ensures { result ≡ length_at s.now at end b p }
{
    if end <= p {
        return Err(Refusal(Fault::CutLength, at));
    }
    let n = usize::from(s[p]);
    if n < 128 {
        return fitted(at, end, b, p + 1, n);
    }
    if n == 129 {
        return long1(s, at, end, b, p + 1);
    }
    if n == 130 {
        return long2(s, at, end, b, p + 1);
    }
    Err(Refusal(Fault::BadLength, at))
}

// The bytes of a tag's number, from p on: three at most.
fn further(s: &[u8], at: usize, end: usize, b: u8, from: usize) -> Result<Header, Refusal>
    requires { end ≤ length s.now }
    ensures { result ≡ further 3 s.now at end b from }
{
    let mut p = from;
    for _turn in 0..3usize {
        if end <= p {
            return Err(Refusal(Fault::CutTag, at));
        }
        if s[p] < 128 {
            return length_at(s, at, end, b, p + 1);
        }
        p += 1;
    }
    Err(Refusal(Fault::BadTag, at))
}

// A tag in high form, its number from p on.
fn high_tag(s: &[u8], at: usize, end: usize, b: u8, p: usize) -> Result<Header, Refusal>
    requires { end ≤ length s.now }
    ensures { result ≡ high_tag s.now at end b p }
{
    if end <= p {
        return Err(Refusal(Fault::CutTag, at));
    }
    let x = s[p];
    if x < 31 {
        return Err(Refusal(Fault::BadTag, at));
    }
    if x == 128 {
        return Err(Refusal(Fault::BadTag, at));
    }
    further(s, at, end, b, p)
}

// The element at `at`, in a container that ends at `end`.
pub fn header(s: &[u8], at: usize, end: usize) -> Result<Header, Refusal>
    requires { end ≤ length s.now }
    ensures { result ≡ header s.now at end }
{
    if end <= at {
        return Err(Refusal(Fault::Missing, end));
    }
    let b = s[at];
    if b == 0 {
        return Err(Refusal(Fault::BadTag, at));
    }
    if b % 32 == 31 {
        return high_tag(s, at, end, b, at + 1);
    }
    length_at(s, at, end, b, at + 1)
}
