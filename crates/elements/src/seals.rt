ghost use Rattle.std.specs.Prelude.{◌≡◌, ◌≤◌, length};
ghost use Rattle.elements.specs.Sealed.{among, sealed_run};

use crate::answer::{Header, Refusal};
use crate::fault::Fault;
use crate::headers::header;

// Whether x is one of the bytes.
fn among(x: u8, bytes: &[u8]) -> bool
    ensures { result ≡ among x bytes.now }
{
    for y in bytes {
        if *y == x {
            return true;
        }
    }
    false
}

// The elements from `at` to `end`, sealed to so many levels; none on the first level has a tag that is kept out.
pub fn sealed(s: &[u8], at: usize, end: usize, levels: usize, out: &[u8]) -> Result<usize, Refusal>
    requires { end ≤ length s.now }
    ensures { result ≡ sealed_run levels s.now out.now at end }
{
    let mut i = at;
    while i < end {
        if levels == 0 {
            return Err(Refusal(Fault::TooDeep, i));
        }
        let Header(b, a, e) = header(s, i, end)?;
        if among(b, out) {
            return Err(Refusal(Fault::NotDue, i));
        }
        if b / 32 % 2 == 1 {
            sealed(s, a, e, levels - 1, &[])?;
        }
        i = e;
    }
    Ok(i)
}
