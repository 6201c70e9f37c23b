ghost use Rattle.std.specs.Prelude.{◌≡◌, ◌+◌, ◌-◌, ◌^◌, ◌≤◌, ◌<◌, length};
ghost use Rattle.std.proofs.Math.Seq.{slice};
ghost use Rattle.elements.specs.Put.{Put, le32};
ghost use Rattle.elements.specs.Record.{record_bytes};

use crate::store::{put_le16, put_le32, put_part};

// A record of the book, its payload the bytes of s from a to e.
pub fn put_record(out: &mut [u8], o: usize, kind: u16, s: &[u8], a: usize, e: usize) -> usize
    requires { (a ≤ e) × (e ≤ length s.now) × (e - a < 65534) × (o < 2 ^ 61) }
    ensures { (result ≡ o + 4 + (e - a)) × Put out.old out.new o result (record_bytes kind (slice a e s.now)) }
{
    let n = e - a + 2;
    let p = put_le16(out, o, n as u16);
    let q = put_le16(out, p, kind);
    put_part(out, q, s, a, e)
}

// A record of the book whose payload is a number.
pub fn put_number(out: &mut [u8], o: usize, kind: u16, v: u32) -> usize
    requires { o < 2 ^ 61 }
    ensures { (result ≡ o + 8) × Put out.old out.new o result (record_bytes kind (le32 v)) }
{
    let p = put_le16(out, o, 6);
    let q = put_le16(out, p, kind);
    put_le32(out, q, v)
}
