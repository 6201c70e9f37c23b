ghost use Rattle.std.specs.Prelude.{◌≡◌, [], ◌∷◌, ◌++◌, ◌+◌, ◌-◌, ◌^◌, ◌≤◌, ◌<◌, length};
ghost use Rattle.std.proofs.Math.Seq.{slice};
ghost use Rattle.elements.specs.Put.{Put, le16};
ghost use Rattle.elements.specs.Record.{record_bytes};

use elements::{put, put_le16, put_part, put_record};

// A record with no payload.
pub fn put_bare(out: &mut [u8], o: usize, kind: u16) -> usize
    requires { o < 2 ^ 62 }
    ensures { (result ≡ o + 4) × Put out.old out.new o result (record_bytes kind []) }
{
    let p = put_le16(out, o, 2);
    put_le16(out, p, kind)
}

// A record of one byte.
pub fn put_one(out: &mut [u8], o: usize, kind: u16, b: u8) -> usize
    requires { o < 2 ^ 61 }
    ensures { (result ≡ o + 5) × Put out.old out.new o result (record_bytes kind (b ∷ [])) }
{
    put_record(out, o, kind, &[b], 0, 1)
}

// A record of two bytes.
pub fn put_two(out: &mut [u8], o: usize, kind: u16, b: u8, c: u8) -> usize
    requires { o < 2 ^ 61 }
    ensures { (result ≡ o + 6) × Put out.old out.new o result (record_bytes kind (b ∷ c ∷ [])) }
{
    put_record(out, o, kind, &[b, c], 0, 2)
}

// A record of two bytes and two numbers of two bytes.
pub fn put_numbers(out: &mut [u8], o: usize, kind: u16, b: u8, c: u8, m: u16, n: u16) -> usize
    requires { o < 2 ^ 61 }
    ensures { (result ≡ o + 10) × Put out.old out.new o result (record_bytes kind (b ∷ c ∷ (le16 m ++ le16 n))) }
{
    let [i, j] = m.to_le_bytes();
    let [k, l] = n.to_le_bytes();
    put_record(out, o, kind, &[b, c, i, j, k, l], 0, 6)
}

// A record of two bytes and the bytes of s from a to e.
pub fn put_behind(
    out: &mut [u8],
    o: usize,
    kind: u16,
    b: u8,
    c: u8,
    s: &[u8],
    a: usize,
    e: usize,
) -> usize
    requires { (a ≤ e) × (e ≤ length s.now) × (e - a < 65532) × (o < 2 ^ 61) }
    ensures { (result ≡ o + 6 + (e - a)) × Put out.old out.new o result (record_bytes kind (b ∷ c ∷ slice a e s.now)) }
{
    let n = e - a + 4;
    let p = put_le16(out, o, n as u16);
    let q = put_le16(out, p, kind);
    let q = put(out, q, b);
    let q = put(out, q, c);
    put_part(out, q, s, a, e)
}

// A record of fill: its byte and how many.
pub fn put_fill(out: &mut [u8], o: usize, kind: u16, b: u8, n: u16) -> usize
    requires { o < 2 ^ 61 }
    ensures { (result ≡ o + 7) × Put out.old out.new o result (record_bytes kind (b ∷ le16 n)) }
{
    let [low, high] = n.to_le_bytes();
    put_record(out, o, kind, &[b, low, high], 0, 3)
}
