ghost use Rattle.std.specs.Prelude.{◌≡◌, ◌≤◌, length};
ghost use Rattle.rules.specs.Files.{to_fill, fill};
ghost use Rattle.objects.specs.Did.{Did, InContainer};
ghost use Rattle.files.specs.Filing.{Filled};

use elements::{Fault, Refusal};
use objects::{Cursor, put_fill};

// Whether an element starts at `at`: the file has not ended, and no fill begins.
pub fn goes_on(s: &[u8], end: usize, at: usize) -> bool
    requires { end ≤ length s.now }
    ensures { result ≡ to_fill s.now end at }
{
    if end <= at {
        return false;
    }
    let b = s[at];
    if b == 0 {
        return false;
    }
    b != 255
}

// The first place from `at` on that differs from b, or the end.
fn differs(s: &[u8], b: u8, end: usize, at: usize) -> usize
    requires { (at ≤ end) × (end ≤ length s.now) }
    ensures { Filled s.now b end at result }
{
    for i in at..end {
        if s[i] != b {
            return i;
        }
    }
    end
}

// "all bytes to the end must equal it": the fill from `at` on, if there is any.
pub fn fill(s: &[u8], kind: u16, end: usize, at: Cursor, out: &mut [u8]) -> Result<Cursor, Refusal>
    requires { InContainer s.now end at.dump at.book }
    ensures { Did out.old out.new at.book at.dump end (fill s.now kind end at.dump) result }
{
    if end <= at.dump {
        return Ok(at);
    }
    let b = s[at.dump];
    let i = differs(s, b, end, at.dump);
    if i < end {
        return Err(Refusal(Fault::FillDiffers, i));
    }
    Ok(Cursor {
        dump: end,
        book: put_fill(out, at.book, kind, b, (end - at.dump) as u16),
    })
}
