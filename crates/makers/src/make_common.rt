ghost use Rattle.rules.specs.Tables.{rule_rows, mark};
ghost use Rattle.rules.specs.Render.{◌next◌, when, within, r_rows, r_keep, r_all, r_condition, r_rule, r_common};
ghost use Rattle.rules.specs.Book.{records_from};
ghost use Rattle.makers.specs.Making.{Making, Makes};

use crate::leaf::{make_rest_in, make_rows};
use crate::made::{Made, TooLong, within};
use crate::make_condition::make_condition;
use crate::many::make_each;
use rules::{Sequence, is_next};

// "accessMode, condition, rest".
fn make_rule_inside(b: &[u8], made: Made, out: &mut [u8]) -> Result<Made, TooLong>
    requires { Making b.now made.next out.old made.end }
    ensures { Makes b.now out.old out.new made.next made.end ((r_rows rule_rows next r_condition 8 next r_keep 0x012c) (records_from b.now made.next)) result }
{
    let made = make_rows(b, made, Sequence::Rule, out)?;
    let made = make_condition(b, made, 8, out)?;
    make_rest_in(b, made, Sequence::Rule, out)
}

// "A rule is 30 { accessMode, condition, rest }".
fn make_rule(b: &[u8], made: Made, out: &mut [u8]) -> Result<Made, TooLong>
    requires { Making b.now made.next out.old made.end }
    ensures { Makes b.now out.old out.new made.next made.end (r_rule (records_from b.now made.next)) result }
{
    within(made, 0x30, out, |made, out| make_rule_inside(b, made, out))
}

// Rules, as long as the next record starts one.
fn make_more_rules(b: &[u8], made: Made, out: &mut [u8]) -> Result<Made, TooLong>
    requires { Making b.now made.next out.old made.end }
    ensures { Makes b.now out.old out.new made.next made.end (r_all (mark rule_rows) r_rule (records_from b.now made.next)) result }
{
    make_each(b, made, &[0x0125], out, |made, out| make_rule(b, made, out))
}

// "rules 30": inside their tag, where the next record starts one.
fn make_due_rules(b: &[u8], made: Made, out: &mut [u8]) -> Result<Made, TooLong>
    requires { Making b.now made.next out.old made.end }
    ensures { Makes b.now out.old out.new made.next made.end (when (mark rule_rows) (within 0x30 (r_all (mark rule_rows) r_rule)) (records_from b.now made.next)) result }
{
    if is_next(b, made.next, 0x0125) {
        return within(made, 0x30, out, |made, out| make_more_rules(b, made, out));
    }
    Ok(made)
}

// Common attributes.
pub fn make_common(b: &[u8], made: Made, out: &mut [u8]) -> Result<Made, TooLong>
    requires { Making b.now made.next out.old made.end }
    ensures { Makes b.now out.old out.new made.next made.end (r_common (records_from b.now made.next)) result }
{
    let made = make_rows(b, made, Sequence::Common, out)?;
    let made = make_due_rules(b, made, out)?;
    make_rest_in(b, made, Sequence::Common, out)
}
