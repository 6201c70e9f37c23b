ghost use Rattle.std.specs.Prelude.{◌≤◌, length};
ghost use Rattle.files.specs.Scan.{Holds};
ghost use Rattle.reader.specs.Twelve.{Sound, FollowTold};

use crate::frame::named_frame;
use elements::{Fault, Refusal};
use files::next_name;
use rules::{same_bytes, word};

// "the files do not follow it": the names that the book b has from i to end, against the files of s from `at` on.
pub fn follow(s: &[u8], at: usize, b: &[u8], i: usize, end: usize) -> Result<(), Refusal>
    requires { Holds b.now i end × Sound s.now at × (at ≤ length s.now) × (length s.now ≤ 32768) }
    ensures { FollowTold s.now at b.now i end result }
{
    let mut k = i;
    let mut n = at;
    while let Some(j) = next_name(b, k, end) {
        if s.len() <= n {
            return Err(Refusal(Fault::FileMissing, s.len()));
        }
        let file = named_frame(s, n)?;
        k = j + 2 + word(b, j);
        if !same_bytes(b, j + 6, k, s, file.path, file.start) {
            return Err(Refusal(Fault::FileDiffers, n));
        }
        n = file.stop;
    }
    if n < s.len() {
        return Err(Refusal(Fault::FileExtra, n));
    }
    Ok(())
}
