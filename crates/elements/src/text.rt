ghost use Rattle.std.specs.Prelude.{◌≡◌, ◌<◌, length};
ghost use Rattle.elements.specs.Text.{text};
ghost use Rattle.elements.specs.Utf8.{byte, utf8_tail, utf8_1, utf8_2, utf8_3, utf8_4, utf8_char};

use crate::answer::Number;
use crate::fault::Fault;
use crate::value::told;

// RFC 3629, section 4, in its order and by its names: each function is told where in c its bytes would stand.

// UTF8-octets = *( UTF8-char ): how many characters contents are.
fn utf8_octets(c: &[u8]) -> Result<Number, Fault>
    ensures { result ≡ text c.now }
{
    let mut n: u64 = 0;
    let mut i = 0;
    while i < c.len() {
        let k = utf8_char(c, i);
        if k == 0 {
            return Err(Fault::BadText);
        }
        n += 1;
        i += k;
    }
    told(n)
}

// UTF8-char = UTF8-1 / UTF8-2 / UTF8-3 / UTF8-4: how many bytes the one at i has, 0 where there is none.
fn utf8_char(c: &[u8], i: usize) -> usize
    requires { i < length c.now }
    ensures { result ≡ utf8_char c.now i }
{
    if utf8_1(c, i) {
        return 1;
    }
    if utf8_2(c, i) {
        return 2;
    }
    if utf8_3(c, i) {
        return 3;
    }
    if utf8_4(c, i) {
        return 4;
    }
    0
}

// UTF8-1 = %x00-7F
fn utf8_1(c: &[u8], i: usize) -> bool
    requires { i < length c.now }
    ensures { result ≡ utf8_1 c.now i }
{
    let b = c[i];
    match b {
        0x00..=0x7f => true,
        _ => false,
    }
}

// UTF8-2 = %xC2-DF UTF8-tail
fn utf8_2(c: &[u8], i: usize) -> bool
    requires { i < length c.now }
    ensures { result ≡ utf8_2 c.now i }
{
    let b = c[i];
    match b {
        0xc2..=0xdf => utf8_tail(c, i + 1),
        _ => false,
    }
}

// UTF8-3 = %xE0 %xA0-BF UTF8-tail / %xE1-EC 2( UTF8-tail ) /
//          %xED %x80-9F UTF8-tail / %xEE-EF 2( UTF8-tail )
fn utf8_3(c: &[u8], i: usize) -> bool
    requires { i < length c.now }
    ensures { result ≡ utf8_3 c.now i }
{
    let b = c[i];
    match b {
        0xe0 => byte(c, i + 1, 0xa0, 0xbf) && utf8_tail(c, i + 2),
        0xe1..=0xec => utf8_tail(c, i + 1) && utf8_tail(c, i + 2),
        0xed => byte(c, i + 1, 0x80, 0x9f) && utf8_tail(c, i + 2),
        0xee..=0xef => utf8_tail(c, i + 1) && utf8_tail(c, i + 2),
        _ => false,
    }
}

// UTF8-4 = %xF0 %x90-BF 2( UTF8-tail ) / %xF1-F3 3( UTF8-tail ) /
//          %xF4 %x80-8F 2( UTF8-tail )
fn utf8_4(c: &[u8], i: usize) -> bool
    requires { i < length c.now }
    ensures { result ≡ utf8_4 c.now i }
{
    let b = c[i];
    match b {
        0xf0 => byte(c, i + 1, 0x90, 0xbf) && (utf8_tail(c, i + 2) && utf8_tail(c, i + 3)),
        0xf1..=0xf3 => utf8_tail(c, i + 1) && (utf8_tail(c, i + 2) && utf8_tail(c, i + 3)),
        0xf4 => byte(c, i + 1, 0x80, 0x8f) && (utf8_tail(c, i + 2) && utf8_tail(c, i + 3)),
        _ => false,
    }
}

// UTF8-tail = %x80-BF
fn utf8_tail(c: &[u8], i: usize) -> bool
    ensures { result ≡ utf8_tail c.now i }
{
    byte(c, i, 0x80, 0xbf)
}

// %xLL-HH: the byte at i is there, and from low to high.
fn byte(c: &[u8], i: usize, low: u8, high: u8) -> bool
    ensures { result ≡ byte low high c.now i }
{
    if c.len() <= i {
        return false;
    }
    low <= c[i] && c[i] <= high
}

// UTF8String: how many characters its contents are.
pub fn text(c: &[u8]) -> Result<Number, Fault>
    ensures { result ≡ text c.now }
{
    utf8_octets(c)
}
