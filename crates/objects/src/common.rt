ghost use Rattle.std.specs.Prelude.{◌-◌};
ghost use Rattle.rules.specs.declared.table.Need.TheVariants.{Required, Optional};
ghost use Rattle.rules.specs.Parts.{component, repeat, to_end};
ghost use Rattle.rules.specs.Objects.{rule, rules, common};
ghost use Rattle.objects.specs.Did.{Did, Forward, Inside, InContainer};

use crate::condition::condition;
use crate::keep::rest_in;
use crate::part::{Cursor, due};
use crate::row::components;
use elements::Refusal;
use rules::{Need, Sequence};

// "A rule is 30 { accessMode, condition, rest }": its contents.
fn rule(s: &[u8], end: usize, at: Cursor, out: &mut [u8]) -> Result<Cursor, Refusal>
    requires { InContainer s.now end at.dump at.book }
    ensures { Inside out.old out.new at.book at.dump end (rule s.now) result }
{
    let at = components(s, Sequence::Rule, end, at, out)?;
    let at = condition(s, 8, 0, end, at, out)?;
    rest_in(s, Sequence::Rule, end, at, out)
}

// A rule where it is due.
fn due_rule(s: &[u8], end: usize, at: Cursor, out: &mut [u8]) -> Result<Cursor, Refusal>
    requires { InContainer s.now end at.dump at.book }
    ensures { Did out.old out.new at.book at.dump end (component s.now 0x30 Required (rule s.now) end at.dump) result × Forward at.dump result }
{
    due(
        s,
        0x30,
        Need::Required,
        end,
        at,
        out,
        |x, at, out| rule(s, x.2, at, out),
    )
}

// Rules up to the end.
fn more_rules(s: &[u8], end: usize, at: Cursor, out: &mut [u8]) -> Result<Cursor, Refusal>
    requires { InContainer s.now end at.dump at.book }
    ensures { Did out.old out.new at.book at.dump end (repeat to_end (λ _. component s.now 0x30 Required (rule s.now)) (end - at.dump) 0 end at.dump) result }
{
    let mut n = at;
    while n.dump < end {
        n = due_rule(s, end, n, out)?;
    }
    Ok(n)
}

// "rules 30?, at least one": their contents.
fn rules(s: &[u8], end: usize, at: Cursor, out: &mut [u8]) -> Result<Cursor, Refusal>
    requires { InContainer s.now end at.dump at.book }
    ensures { Inside out.old out.new at.book at.dump end (rules s.now) result }
{
    let at = due_rule(s, end, at, out)?;
    more_rules(s, end, at, out)
}

// Rules where they may stand.
fn due_rules(s: &[u8], end: usize, at: Cursor, out: &mut [u8]) -> Result<Cursor, Refusal>
    requires { InContainer s.now end at.dump at.book }
    ensures { Did out.old out.new at.book at.dump end (component s.now 0x30 Optional (rules s.now) end at.dump) result }
{
    due(
        s,
        0x30,
        Need::Optional,
        end,
        at,
        out,
        |x, at, out| rules(s, x.2, at, out),
    )
}

// Common attributes: their contents.
fn common(s: &[u8], end: usize, at: Cursor, out: &mut [u8]) -> Result<Cursor, Refusal>
    requires { InContainer s.now end at.dump at.book }
    ensures { Inside out.old out.new at.book at.dump end (common s.now) result }
{
    let at = components(s, Sequence::Common, end, at, out)?;
    let at = due_rules(s, end, at, out)?;
    rest_in(s, Sequence::Common, end, at, out)
}

// Common attributes where they are due.
pub fn due_common(s: &[u8], end: usize, at: Cursor, out: &mut [u8]) -> Result<Cursor, Refusal>
    requires { InContainer s.now end at.dump at.book }
    ensures { Did out.old out.new at.book at.dump end (component s.now 0x30 Required (common s.now) end at.dump) result }
{
    due(
        s,
        0x30,
        Need::Required,
        end,
        at,
        out,
        |x, at, out| common(s, x.2, at, out),
    )
}
