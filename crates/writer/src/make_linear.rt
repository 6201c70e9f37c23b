ghost use Rattle.std.specs.Prelude.{[], ◌∷◌, ◌+◌, ◌≤◌, length};
ghost use Rattle.rules.specs.Render.{r_all, r_record_in, r_linear};
ghost use Rattle.rules.specs.Book.{records_from};
ghost use Rattle.makers.specs.Making.{Making, Makes, Onward};

use crate::behind::behind;
use crate::make_entry::make_directory;
use elements::put_le16;
use makers::{Made, TooLong, make_each};
use rules::record_end;

// A record of a record file, whose 011A is next: its length in two bytes, then what is inside.
fn make_record(b: &[u8], made: Made, out: &mut [u8]) -> Result<Made, TooLong>
    requires { (made.next + 4 ≤ length b.now) × Making b.now made.next out.old made.end }
    ensures { Makes b.now out.old out.new made.next made.end (r_record_in (records_from b.now made.next)) result × Onward b.now made.next result }
{
    behind(
        made,
        2,
        out,
        |made, out| make_directory(b, made, out),
        |out, o, n| {
            put_le16(out, o, n);
        },
    )
}

// Records, as long as the next record of the book opens one.
fn make_records(b: &[u8], made: Made, out: &mut [u8]) -> Result<Made, TooLong>
    requires { Making b.now made.next out.old made.end }
    ensures { Makes b.now out.old out.new made.next made.end (r_all (0x011a ∷ []) r_record_in (records_from b.now made.next)) result }
{
    make_each(
        b,
        made,
        &[0x011a],
        out,
        |made, out| make_record(b, made, out),
    )
}

// The records behind a record file's 0119.
pub fn make_linear(b: &[u8], made: Made, out: &mut [u8]) -> Result<Made, TooLong>
    requires { Making b.now made.next out.old made.end }
    ensures { Makes b.now out.old out.new made.next made.end (r_linear (records_from b.now made.next)) result }
{
    if b.len() < made.next + 4 {
        return Ok(made);
    }
    let next = record_end(b, made.next);
    make_records(b, Made { next, ..made }, out)
}
