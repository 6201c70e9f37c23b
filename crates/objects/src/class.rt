ghost use Rattle.std.specs.Prelude.{[]};
ghost use Rattle.rules.specs.declared.table.Need.TheVariants.{Required, Optional};
ghost use Rattle.rules.specs.declared.table.Class.TheVariants.{Containers};
ghost use Rattle.rules.specs.Parts.{component, components, rest, element, sealed};
ghost use Rattle.rules.specs.Reading.{◌then◌};
ghost use Rattle.rules.specs.Tables.{rows_of, rest_of, kept_of};
ghost use Rattle.rules.specs.Objects.{class_body, subclass};
ghost use Rattle.objects.specs.Did.{Did, Inside, InElement, InContainer};

use crate::keep::{ended, rest_in, sealed};
use crate::part::{Cursor, due};
use crate::row::components;
use elements::{Header, Refusal, header, put_record};
use rules::{Class, Need, Sequence};

// Data containers: sealed contents, present even when empty.
fn container(s: &[u8], x: Header, at: Cursor, out: &mut [u8]) -> Result<Cursor, Refusal>
    requires { InElement s.now at.dump x.1 x.2 at.book }
    ensures { Did out.old out.new at.book x.1 x.2 (class_body s.now Containers at.dump x.1 x.2) result }
{
    elements::sealed(s, x.1, x.2, 16, &[])?;
    let book = put_record(out, at.book, 0x0160, s, x.1, x.2);
    Ok(Cursor { dump: x.2, book })
}

// The components of a sequence, and its rest.
pub fn sequence(
    s: &[u8],
    q: Sequence,
    end: usize,
    at: Cursor,
    out: &mut [u8],
) -> Result<Cursor, Refusal>
    requires { InContainer s.now end at.dump at.book }
    ensures { Did out.old out.new at.book at.dump end ((components s.now (rows_of q) then rest s.now (rest_of q) (kept_of q)) end at.dump) result }
{
    let at = components(s, q, end, at, out)?;
    rest_in(s, q, end, at, out)
}

// What an object of a class has.
fn class_body(s: &[u8], c: Class, x: Header, at: Cursor, out: &mut [u8]) -> Result<Cursor, Refusal>
    requires { InElement s.now at.dump x.1 x.2 at.book }
    ensures { Did out.old out.new at.book x.1 x.2 (class_body s.now c at.dump x.1 x.2) result }
{
    let inside = Cursor { dump: x.1, ..at };
    match c {
        Class::Keys => sequence(s, Sequence::Key, x.2, inside, out),
        Class::Certificates => sequence(s, Sequence::CertificateAttributes, x.2, inside, out),
        Class::Authentications => sequence(s, Sequence::Authentication, x.2, inside, out),
        Class::Containers => container(s, x, at, out),
    }
}

// The class where it is due.
pub fn due_class(
    s: &[u8],
    c: Class,
    end: usize,
    at: Cursor,
    out: &mut [u8],
) -> Result<Cursor, Refusal>
    requires { InContainer s.now end at.dump at.book }
    ensures { Did out.old out.new at.book at.dump end (component s.now 0x30 Required (class_body s.now c) end at.dump) result }
{
    due(
        s,
        0x30,
        Need::Required,
        end,
        at,
        out,
        |x, _, out| class_body(s, c, x, at, out),
    )
}

// An element that must be there, sealed whatever its tag.
pub fn any_sealed(
    s: &[u8],
    kind: u16,
    end: usize,
    at: Cursor,
    out: &mut [u8],
) -> Result<Cursor, Refusal>
    requires { InContainer s.now end at.dump at.book }
    ensures { Did out.old out.new at.book at.dump end (element s.now (sealed s.now kind []) end at.dump) result }
{
    let x = header(s, at.dump, end)?;
    sealed(s, kind, x, at, out)
}

// "Subclass: one sealed element inside the A0": its contents.
fn subclass(s: &[u8], end: usize, at: Cursor, out: &mut [u8]) -> Result<Cursor, Refusal>
    requires { InContainer s.now end at.dump at.book }
    ensures { Inside out.old out.new at.book at.dump end (subclass s.now) result }
{
    let at = any_sealed(s, 0x0170, end, at, out)?;
    ended(s, end, at)
}

// The subclass where it may stand.
pub fn due_subclass(s: &[u8], end: usize, at: Cursor, out: &mut [u8]) -> Result<Cursor, Refusal>
    requires { InContainer s.now end at.dump at.book }
    ensures { Did out.old out.new at.book at.dump end (component s.now 0xa0 Optional (subclass s.now) end at.dump) result }
{
    due(
        s,
        0xa0,
        Need::Optional,
        end,
        at,
        out,
        |x, at, out| subclass(s, x.2, at, out),
    )
}
