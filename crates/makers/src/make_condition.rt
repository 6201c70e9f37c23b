ghost use Rattle.std.specs.Prelude.{◌≡◌, ◌≤◌};
ghost use Rattle.std.proofs.Math.Seq.{slice};
ghost use Rattle.rules.specs.Tables.{kind_of, sort_by};
ghost use Rattle.rules.specs.Render.{r_times, r_condition_as, r_condition};
ghost use Rattle.rules.specs.Book.{records_from};
ghost use Rattle.makers.specs.Making.{Making, Makes};

use crate::leaf::{count_at, make_part, part_element};
use crate::made::{Made, TooLong, closed, opened};
use rules::{Sort, record_end, word};

// What a condition is, by its record's kind.
fn sort_of_kind(k: usize) -> Sort
    ensures { result ≡ sort_by kind_of k }
{
    match k {
        0x0126 => Sort::Always,
        0x0127 => Sort::Identifier,
        0x0129 => Sort::Not,
        0x012a => Sort::And,
        0x012b => Sort::Or,
        _ => Sort::Other,
    }
}

// A condition, with so many levels left.
#[cycle(condition_tree)]
pub fn make_condition(b: &[u8], made: Made, levels: usize, out: &mut [u8]) -> Result<Made, TooLong>
    requires { Making b.now made.next out.old made.end }
    ensures { Makes b.now out.old out.new made.next made.end (r_condition levels (records_from b.now made.next)) result }
{
    if levels == 0 {
        return Ok(made);
    }
    if b.len() < made.next + 4 {
        return Ok(made);
    }
    let sort = sort_of_kind(word(b, made.next + 2));
    let next = record_end(b, made.next);
    let behind = Made { next, ..made };
    make_condition_as(b, behind, levels - 1, sort, made.next + 4, out)
}

// A condition of a sort, whose record's payload starts at p; what is inside it has so many levels left.
#[cycle(condition_tree)]
fn make_condition_as(
    b: &[u8],
    made: Made,
    levels: usize,
    x: Sort,
    p: usize,
    out: &mut [u8],
) -> Result<Made, TooLong>
    requires { (p ≤ made.next) × Making b.now made.next out.old made.end }
    ensures { Makes b.now out.old out.new made.next made.end (r_condition_as levels x (slice p made.next b.now) (records_from b.now made.next)) result }
{
    let inside = opened(made, 2, out.len());
    match x {
        Sort::Always => part_element(b, made, p, p, 0x05, out),
        Sort::Identifier => part_element(b, made, p, made.next, 0x04, out),
        Sort::Not => {
            let inner = make_condition(b, inside, levels, out);
            closed(out, made.end, 0xa0, inner)
        }
        Sort::And => {
            let inner = make_times(b, inside, levels, count_at(b, p, made.next, 0), out);
            closed(out, made.end, 0xa1, inner)
        }
        Sort::Or => {
            let inner = make_times(b, inside, levels, count_at(b, p, made.next, 0), out);
            closed(out, made.end, 0xa2, inner)
        }
        Sort::Other => make_part(b, made, p, made.next, out),
    }
}

// So many conditions; where no level or no record is left, no more can come.
#[cycle(condition_tree)]
fn make_times(
    b: &[u8],
    made: Made,
    levels: usize,
    k: usize,
    out: &mut [u8],
) -> Result<Made, TooLong>
    requires { Making b.now made.next out.old made.end }
    ensures { Makes b.now out.old out.new made.next made.end (r_times k (λ rs. r_condition levels rs) (records_from b.now made.next)) result }
{
    if levels == 0 {
        return Ok(made);
    }
    let mut done = made;
    for _turn in 0..k {
        if b.len() < done.next + 4 {
            return Ok(done);
        }
        done = make_condition(b, done, levels, out)?;
    }
    Ok(done)
}
