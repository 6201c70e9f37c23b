ghost use Rattle.std.specs.Prelude.{◌≡◌, ◌+◌, ◌-◌, ◌^◌, ◌≤◌, ◌<◌, length, [], ◌∷◌};
ghost use Rattle.std.proofs.Math.Seq.{slice};
ghost use Rattle.elements.specs.Put.{Put, le16, le32, Places};

// Stores x at out[o] where out has such a place.
pub fn put<T: Copy>(out: &mut [T], o: usize, x: T) -> usize
    requires { o < 2 ^ 64 - 1 }
    ensures { Put out.old out.new o result (x ∷ []) }
{
    if o < out.len() {
        out[o] = x;
    }
    o + 1
}

// Two bytes, the low one first.
pub fn put_le16(out: &mut [u8], o: usize, v: u16) -> usize
    requires { o < 2 ^ 63 }
    ensures { Put out.old out.new o result (le16 v) }
{
    let [low, high] = v.to_le_bytes();
    let p = put(out, o, low);
    put(out, p, high)
}

// Four bytes, the low one first.
pub fn put_le32(out: &mut [u8], o: usize, v: u32) -> usize
    requires { o < 2 ^ 62 }
    ensures { Put out.old out.new o result (le32 v) }
{
    let p = put_le16(out, o, (v % 65536) as u16);
    put_le16(out, p, (v / 65536) as u16)
}

// How many of n places from o on there are, of len in all.
fn places(len: usize, o: usize, n: usize) -> usize
    ensures { Places len o n result }
{
    if len <= o {
        return 0;
    }
    if len - o < n {
        return len - o;
    }
    n
}

// The bytes of s from a to e, as far as there is a place for them.
pub fn put_part(out: &mut [u8], o: usize, s: &[u8], a: usize, e: usize) -> usize
    requires { (a ≤ e) × (e ≤ length s.now) × (o < 2 ^ 63) }
    ensures { (result ≡ o + (e - a)) × Put out.old out.new o result (slice a e s.now) }
{
    let n = places(out.len(), o, e - a);
    for i in 0..n {
        out[o + i] = s[a + i];
    }
    o + (e - a)
}
