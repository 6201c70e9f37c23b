ghost use Rattle.std.specs.Prelude.{◌+◌, ◌≤◌, length};
ghost use Rattle.rules.specs.Render.{within, r_dir};
ghost use Rattle.rules.specs.Book.{records_from};
ghost use Rattle.makers.specs.Making.{Making, Makes, Onward};
ghost use Rattle.writer.specs.Composed.{both_paths, with_set, r_discretionary, due_discretionary, inside_template, r_template, r_item, r_items};

use makers::{
    Made, TooLong, make_due_path, make_each, make_fill, make_keep, make_part, make_rest_in,
    make_rows, within,
};
use rules::{Sequence, is_next, record_end};

// providerId and both Paths.
fn both_paths(b: &[u8], made: Made, out: &mut [u8]) -> Result<Made, TooLong>
    requires { Making b.now made.next out.old made.end }
    ensures { Makes b.now out.old out.new made.next made.end (both_paths (records_from b.now made.next)) result }
{
    let made = make_keep(b, made, 0x0206, out)?;
    let made = make_due_path(b, made, Sequence::OdfPath, 0x30, out)?;
    make_due_path(b, made, Sequence::InfoPath, 0xa0, out)
}

// Then aid and the SET.
fn with_set(b: &[u8], made: Made, out: &mut [u8]) -> Result<Made, TooLong>
    requires { Making b.now made.next out.old made.end }
    ensures { Makes b.now out.old out.new made.next made.end (with_set (records_from b.now made.next)) result }
{
    let made = both_paths(b, made, out)?;
    let made = make_rows(b, made, Sequence::Discretionary, out)?;
    make_keep(b, made, 0x020e, out)
}

// The contents of a 73.
fn make_discretionary(b: &[u8], made: Made, out: &mut [u8]) -> Result<Made, TooLong>
    requires { Making b.now made.next out.old made.end }
    ensures { Makes b.now out.old out.new made.next made.end (r_discretionary (records_from b.now made.next)) result }
{
    let made = with_set(b, made, out)?;
    make_rest_in(b, made, Sequence::Discretionary, out)
}

// A 73, if the next record is the one in front of it.
fn due_discretionary(b: &[u8], made: Made, out: &mut [u8]) -> Result<Made, TooLong>
    requires { Making b.now made.next out.old made.end }
    ensures { Makes b.now out.old out.new made.next made.end (due_discretionary (records_from b.now made.next)) result }
{
    if is_next(b, made.next, 0x0205) {
        let next = record_end(b, made.next);
        let contents = Made { next, ..made };
        return within(
            contents,
            0x73,
            out,
            |made, out| make_discretionary(b, made, out),
        );
    }
    Ok(made)
}

// "identifier 4F .., label 50?, path 51? .., 73?, rest".
fn inside_template(b: &[u8], made: Made, out: &mut [u8]) -> Result<Made, TooLong>
    requires { Making b.now made.next out.old made.end }
    ensures { Makes b.now out.old out.new made.next made.end (inside_template (records_from b.now made.next)) result }
{
    let made = make_rows(b, made, Sequence::Template, out)?;
    let made = due_discretionary(b, made, out)?;
    make_rest_in(b, made, Sequence::Template, out)
}

// An application template: its 0201 is next.
fn make_template(b: &[u8], made: Made, out: &mut [u8]) -> Result<Made, TooLong>
    requires { (made.next + 4 ≤ length b.now) × Making b.now made.next out.old made.end }
    ensures { Makes b.now out.old out.new made.next made.end (within 0x61 r_template (records_from b.now made.next)) result × Onward b.now made.next result }
{
    let next = record_end(b, made.next);
    let behind = Made { next, ..made };
    within(behind, 0x61, out, |made, out| inside_template(b, made, out))
}

// A template, or "another element of the file", which was sealed.
fn make_item(b: &[u8], made: Made, out: &mut [u8]) -> Result<Made, TooLong>
    requires { (made.next + 4 ≤ length b.now) × Making b.now made.next out.old made.end }
    ensures { Makes b.now out.old out.new made.next made.end (r_item (records_from b.now made.next)) result × Onward b.now made.next result }
{
    if is_next(b, made.next, 0x0201) {
        return make_template(b, made, out);
    }
    let e = record_end(b, made.next);
    make_part(b, Made { next: e, ..made }, made.next + 4, e, out)
}

// Elements, as long as the next record starts one.
fn make_items(b: &[u8], made: Made, out: &mut [u8]) -> Result<Made, TooLong>
    requires { Making b.now made.next out.old made.end }
    ensures { Makes b.now out.old out.new made.next made.end (r_items (records_from b.now made.next)) result }
{
    make_each(
        b,
        made,
        &[0x0201, 0x0211],
        out,
        |made, out| make_item(b, made, out),
    )
}

// EF.DIR's file: its 0200 is next.
pub fn make_dir(b: &[u8], made: Made, out: &mut [u8]) -> Result<Made, TooLong>
    requires { (made.next + 4 ≤ length b.now) × Making b.now made.next out.old made.end }
    ensures { Makes b.now out.old out.new made.next made.end (r_dir (records_from b.now made.next)) result }
{
    let next = record_end(b, made.next);
    let behind = Made { next, ..made };
    let made = make_items(b, behind, out)?;
    make_fill(b, made, 0x0212, out)
}
