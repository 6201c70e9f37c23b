ghost use Rattle.rules.specs.declared.table.Need.TheVariants.{Required};
ghost use Rattle.rules.specs.Parts.{component};
ghost use Rattle.rules.specs.Files.{cia_body, cia_element, cia_fill, cia};
ghost use Rattle.objects.specs.Did.{Did, Inside, InContainer};

use crate::fills::{fill, goes_on};
use elements::{Fault, Refusal, header};
use objects::{Cursor, due, sequence};
use rules::{Need, Sequence};

// CIAInfo: its contents, from a place to their end.
fn info_body(s: &[u8], end: usize, at: Cursor, out: &mut [u8]) -> Result<Cursor, Refusal>
    requires { InContainer s.now end at.dump at.book }
    ensures { Inside out.old out.new at.book at.dump end (cia_body s.now) result }
{
    sequence(s, Sequence::Info, end, at, out)
}

fn due_info(s: &[u8], end: usize, at: Cursor, out: &mut [u8]) -> Result<Cursor, Refusal>
    requires { InContainer s.now end at.dump at.book }
    ensures { Did out.old out.new at.book at.dump end (component s.now 0x30 Required (cia_body s.now) end at.dump) result }
{
    due(s, 0x30, Need::Required, end, at, out, |x, inside, out| {
        info_body(s, x.2, inside, out)
    })
}

// "CIAInfo's file has just one element: none, even before fill, is 5 at the file's end".
fn info_element(s: &[u8], end: usize, at: Cursor, out: &mut [u8]) -> Result<Cursor, Refusal>
    requires { InContainer s.now end at.dump at.book }
    ensures { Did out.old out.new at.book at.dump end (cia_element s.now end at.dump) result }
{
    if goes_on(s, end, at.dump) {
        return due_info(s, end, at, out);
    }
    Err(Refusal(Fault::Missing, end))
}

// "a second is 3"; then its fill.
fn info_fill(s: &[u8], end: usize, at: Cursor, out: &mut [u8]) -> Result<Cursor, Refusal>
    requires { InContainer s.now end at.dump at.book }
    ensures { Did out.old out.new at.book at.dump end (cia_fill s.now end at.dump) result }
{
    if goes_on(s, end, at.dump) {
        header(s, at.dump, end)?;
        return Err(Refusal(Fault::OneMore, at.dump));
    }
    fill(s, 0x0108, end, at, out)
}

// CIAInfo's file.
pub fn info(s: &[u8], end: usize, at: Cursor, out: &mut [u8]) -> Result<Cursor, Refusal>
    requires { InContainer s.now end at.dump at.book }
    ensures { Did out.old out.new at.book at.dump end (cia s.now end at.dump) result }
{
    let at = info_element(s, end, at, out)?;
    info_fill(s, end, at, out)
}
