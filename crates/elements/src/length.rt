ghost use Rattle.std.specs.Prelude.{◌+◌, ◌^◌, ◌<◌, ◌≤◌, ◌∷◌};
ghost use Rattle.elements.specs.Put.{Put};
ghost use Rattle.elements.specs.Length.{shortest};

use crate::store::put;

// The shortest length field of n; behind 82, of its two low bytes.
pub fn put_length(out: &mut [u8], o: usize, n: usize) -> usize
    requires { o < 2 ^ 62 }
    ensures { (result ≤ o + 3) × Put out.old out.new o result (shortest n) }
{
    if n < 128 {
        return put(out, o, n as u8);
    }
    if n < 256 {
        let p = put(out, o, 129);
        return put(out, p, n as u8);
    }
    let p = put(out, o, 130);
    let q = put(out, p, (n / 256 % 256) as u8);
    put(out, q, (n % 256) as u8)
}

// The header of a low tag and n bytes of contents.
pub fn put_header(out: &mut [u8], o: usize, tag: u8, n: usize) -> usize
    requires { o < 2 ^ 61 }
    ensures { (result ≤ o + 4) × Put out.old out.new o result (tag ∷ shortest n) }
{
    let p = put(out, o, tag);
    put_length(out, p, n)
}
