ghost use Rattle.std.specs.Prelude.{◌≡◌, ◌+◌, ◌*◌, ◌≤◌, length};
ghost use Rattle.std.proofs.Math.Seq.{slice};
ghost use Rattle.rules.specs.Files.{two, equal};

// A number in two bytes, the low one first.
pub fn of_two(x: u8, y: u8) -> usize
    ensures { result ≡ x + 256 * y }
{
    x as usize + 256 * (y as usize)
}

// Two bytes, the low one first.
pub fn word(b: &[u8], i: usize) -> usize
    requires { i + 2 ≤ length b.now }
    ensures { result ≡ two b.now i }
{
    of_two(b[i], b[i + 1])
}

// Whether s from i to j and t from k to l are the same bytes.
pub fn same_bytes(s: &[u8], i: usize, j: usize, t: &[u8], k: usize, l: usize) -> bool
    requires { (i ≤ j) × (j ≤ length s.now) × (k ≤ l) × (l ≤ length t.now) }
    ensures { result ≡ equal (slice i j s.now) (slice k l t.now) }
{
    s[i..j] == t[k..l]
}
