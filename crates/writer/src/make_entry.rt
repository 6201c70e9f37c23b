ghost use Rattle.std.specs.Prelude.{[], ◌∷◌, ◌+◌, ◌≤◌, length};
ghost use Rattle.rules.specs.Render.{r_all, r_inside, r_entry, r_cia, r_od, r_directory};
ghost use Rattle.rules.specs.Book.{records_from, Ends};
ghost use Rattle.makers.specs.Making.{Making, Makes, Onward};
ghost use Rattle.writer.specs.MakingFiles.{Tail};

use makers::{
    Made, TooLong, make_each, make_fill, make_objects, make_part, make_sequence, part_element,
    within,
};
use rules::{Sequence, byte_at, record_end};

// Where an entry's own bytes start, behind its tag and the byte that says what it is.
fn tail_of(i: usize, e: usize) -> usize
    requires { (i + 4 ≤ e) × (e ≤ 131072) }
    ensures { (result ≤ e) × Tail i e result }
{
    if e < i + 6 {
        return e;
    }
    i + 6
}

// Inside an entry's tag: a Path or objects, by the byte behind the tag. The entry's record ends at e.
fn make_inside(b: &[u8], made: Made, e: usize, out: &mut [u8]) -> Result<Made, TooLong>
    requires { Ends b.now made.next e × Making b.now made.next out.old made.end }
    ensures { Makes b.now out.old out.new made.next made.end (r_inside (records_from b.now made.next)) result × Onward b.now made.next result }
{
    let behind = Made { next: e, ..made };
    if byte_at(b, made.next + 4, e, 1) == 0 {
        let p = tail_of(made.next, e);
        return within(
            behind,
            0x30,
            out,
            |made, out| part_element(b, made, p, e, 0x04, out),
        );
    }
    within(behind, 0xa0, out, |made, out| make_objects(b, made, out))
}

// An entry of EF.OD.
fn make_entry(b: &[u8], made: Made, out: &mut [u8]) -> Result<Made, TooLong>
    requires { (made.next + 4 ≤ length b.now) × Making b.now made.next out.old made.end }
    ensures { Makes b.now out.old out.new made.next made.end (r_entry (records_from b.now made.next)) result × Onward b.now made.next result }
{
    let e = record_end(b, made.next);
    if byte_at(b, made.next + 4, e, 1) < 2 {
        let tag = byte_at(b, made.next + 4, e, 0);
        return within(made, tag, out, |made, out| make_inside(b, made, e, out));
    }
    make_part(b, Made { next: e, ..made }, tail_of(made.next, e), e, out)
}

// Entries, as long as the next record is one.
fn make_entries(b: &[u8], made: Made, out: &mut [u8]) -> Result<Made, TooLong>
    requires { Making b.now made.next out.old made.end }
    ensures { Makes b.now out.old out.new made.next made.end (r_all (0x0110 ∷ []) r_entry (records_from b.now made.next)) result }
{
    make_each(
        b,
        made,
        &[0x0110],
        out,
        |made, out| make_entry(b, made, out),
    )
}

// EF.OD's file.
pub fn make_od(b: &[u8], made: Made, out: &mut [u8]) -> Result<Made, TooLong>
    requires { Making b.now made.next out.old made.end }
    ensures { Makes b.now out.old out.new made.next made.end (r_od (records_from b.now made.next)) result }
{
    let made = make_entries(b, made, out)?;
    make_fill(b, made, 0x0107, out)
}

// CIAInfo's file.
pub fn make_cia(b: &[u8], made: Made, out: &mut [u8]) -> Result<Made, TooLong>
    requires { Making b.now made.next out.old made.end }
    ensures { Makes b.now out.old out.new made.next made.end (r_cia (records_from b.now made.next)) result }
{
    let made = within(
        made,
        0x30,
        out,
        |made, out| make_sequence(b, made, Sequence::Info, out),
    )?;
    make_fill(b, made, 0x0108, out)
}

// Inside a directory file or a record of one, whose 0118 or 011A is next: objects, then fill.
pub fn make_directory(b: &[u8], made: Made, out: &mut [u8]) -> Result<Made, TooLong>
    requires { (made.next + 4 ≤ length b.now) × Making b.now made.next out.old made.end }
    ensures { Makes b.now out.old out.new made.next made.end (r_directory (records_from b.now made.next)) result × Onward b.now made.next result }
{
    let next = record_end(b, made.next);
    let behind = Made { next, ..made };
    let made = make_objects(b, behind, out)?;
    make_fill(b, made, 0x0107, out)
}
