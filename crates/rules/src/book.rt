// The records of any bytes, as a book's are laid out.
ghost use Rattle.std.specs.Prelude.{◌≡◌, ◌+◌, ◌≤◌, length, get_or};
ghost use Rattle.std.proofs.Math.Seq.{slice};
ghost use Rattle.rules.specs.Files.{two, names_path};
ghost use Rattle.rules.specs.Book.{records_from, Ends, next_is};

use crate::bytes::word;

// Where the record at i ends: its length may be senseless, or go beyond the book.
pub fn record_end(b: &[u8], i: usize) -> usize
    requires { (i + 4 ≤ length b.now) × (length b.now ≤ 131072) }
    ensures { Ends b.now i result }
{
    let n = word(b, i);
    if n < 2 {
        return i + 4;
    }
    if b.len() < i + 2 + n {
        return b.len();
    }
    i + 2 + n
}

// Whether the next record is of this kind.
pub fn is_next(b: &[u8], i: usize, kind: usize) -> bool
    requires { (i ≤ length b.now) × (length b.now ≤ 131072) }
    ensures { result ≡ next_is kind (records_from b.now i) }
{
    if b.len() < i + 4 {
        return false;
    }
    word(b, i + 2) == kind
}

// The k-th byte of what stands from p to e, 0 if it is shorter.
pub fn byte_at(b: &[u8], p: usize, e: usize, k: usize) -> u8
    requires { (p ≤ e) × (e ≤ length b.now) }
    ensures { result ≡ get_or (slice p e b.now) k 0 }
{
    if e - p <= k {
        return 0;
    }
    b[p + k]
}

// Whether the record at j, which ends at e, names a path.
pub fn is_name(b: &[u8], j: usize, e: usize) -> bool
    requires { (j + 4 ≤ e) × (e ≤ length b.now) }
    ensures { result ≡ names_path (two b.now (j + 2)) (slice (j + 4) e b.now) }
{
    if word(b, j + 2) != 0x0110 {
        return false;
    }
    if e - (j + 4) < 2 {
        return false;
    }
    byte_at(b, j + 4, e, 1) == 0
}
