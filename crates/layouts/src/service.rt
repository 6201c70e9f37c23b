ghost use Rattle.std.specs.Prelude.{◌≤◌, ◌≡◌, length};
ghost use Rattle.layouts.specs.Service.{Gives, ReadTold, WriteTold};

use crate::accept::tried;
use elements::{Fault, Refusal, put_part};
use reader::read_into;

// These bytes into the lent slice, if it has room for them.
fn give(from: &[u8], lent: &mut [u8]) -> Result<usize, Refusal>
    ensures { Gives from.now lent.old lent.new result }
{
    let n = from.len();
    if lent.len() < n {
        return Err(Refusal(Fault::NoRoom, n));
    }
    put_part(lent, 0, from, 0, n);
    Ok(n)
}

// A dump into a book.
pub fn read(dump: &[u8], book: &mut [u8]) -> Result<usize, Refusal>
    ensures { ReadTold dump.now book.old book.new result }
{
    let mut space = [0u8; 131072];
    let n = read_into(dump, &mut space)?;
    give(&space[..n], book)
}

// A book into the dump that has it.
pub fn write(book: &[u8], dump: &mut [u8]) -> Result<usize, Refusal>
    ensures { WriteTold book.now dump.old dump.new result }
{
    let mut space = [0u8; 32768];
    match tried(book, &mut space) {
        Some(n) => give(&space[..n], dump),
        None => Err(Refusal(Fault::NoDump, 0)),
    }
}
