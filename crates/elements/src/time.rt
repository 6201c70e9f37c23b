ghost use Rattle.std.specs.Prelude.{◌≡◌, ◌+◌, ◌-◌, ◌<◌, ◌≤◌, length};
ghost use Rattle.elements.specs.Time.{is_digit, digits, two, leap, days_of, dated, clocked, stated, time};

use crate::answer::Number;
use crate::fault::Fault;

fn is_digit(x: u8) -> bool
    ensures { result ≡ is_digit x }
{
    match x {
        48..=57 => true,
        _ => false,
    }
}

// Whether the first n bytes are digits.
fn digits(c: &[u8], n: usize) -> bool
    requires { n ≤ length c.now }
    ensures { result ≡ digits n c.now }
{
    for i in 0..n {
        if !is_digit(c[i]) {
            return false;
        }
    }
    true
}

fn figure(x: u8) -> u32
    ensures { (result ≡ x - 48) × (result ≤ 207) }
{
    if x < 48 {
        return 0;
    }
    (x - 48) as u32
}

// The number of two digits at i.
fn two(c: &[u8], i: usize) -> u32
    requires { i + 1 < length c.now }
    ensures { (result ≡ two c.now i) × (result < 4096) }
{
    figure(c[i]) * 10 + figure(c[i + 1])
}

fn leap(y: u32) -> bool
    ensures { result ≡ leap y }
{
    if y % 4 == 0 {
        if y % 100 == 0 {
            return y % 400 == 0;
        }
        return true;
    }
    false
}

fn february(y: u32) -> u32
    ensures { result ≡ days_of y 2 }
{
    if leap(y) {
        return 29;
    }
    28
}

// The days of a month; none where there is no such month.
fn days_of(y: u32, m: u32) -> u32
    ensures { result ≡ days_of y m }
{
    match m {
        2 => february(y),
        4 | 6 | 9 | 11 => 30,
        1..=12 => 31,
        _ => 0,
    }
}

fn dated(y: u32, m: u32, d: u32) -> bool
    ensures { result ≡ dated y m d }
{
    if d == 0 {
        return false;
    }
    d <= days_of(y, m)
}

fn clocked(h: u32, m: u32, s: u32) -> bool
    ensures { result ≡ clocked h m s }
{
    if 23 < h {
        return false;
    }
    if 59 < m {
        return false;
    }
    s <= 59
}

// Whether the bytes are YYYYMMDDhhmmssZ.
fn stated(c: &[u8]) -> bool
    ensures { result ≡ stated c.now }
{
    if c.len() != 15 {
        return false;
    }
    if c[14] != 90 {
        return false;
    }
    if !digits(c, 14) {
        return false;
    }
    if !dated(two(c, 0) * 100 + two(c, 2), two(c, 4), two(c, 6)) {
        return false;
    }
    clocked(two(c, 8), two(c, 10), two(c, 12))
}

// A time from its contents.
pub fn time(c: &[u8]) -> Result<Number, Fault>
    ensures { result ≡ time c.now }
{
    if stated(c) {
        return Ok(Number(false, 0));
    }
    Err(Fault::BadTime)
}
