ghost use Rattle.std.specs.Prelude.{◌≡◌, ◌-◌, ◌||◌, ◌&&◌, eqb, leb};
ghost use Rattle.rules.specs.Objects.{contents, object_body, object};
ghost use Rattle.objects.specs.Composed.{attributes};
ghost use Rattle.objects.specs.Did.{Did, Forward, InElement, InContainer};

use crate::class::{due_class, due_subclass};
use crate::common::due_common;
use crate::keep::ended;
use crate::part::Cursor;
use crate::records::put_numbers;
use crate::types::due_type;
use elements::{Fault, Header, Refusal, header};
use rules::{Site, class_of, type_of};

// "Object: tag 30 or A0 to A7".
fn is_object(t: u8) -> bool
    ensures { result ≡ (eqb t 0x30 || (leb 0xa0 t && leb t 0xa7)) }
{
    matches!(t, 0x30 | 0xa0..=0xa7)
}

// Common, class and subclass.
fn attributes(
    s: &[u8],
    entry: u8,
    end: usize,
    at: Cursor,
    out: &mut [u8],
) -> Result<Cursor, Refusal>
    requires { InContainer s.now end at.dump at.book }
    ensures { Did out.old out.new at.book at.dump end (attributes s.now entry end at.dump) result }
{
    let at = due_common(s, end, at, out)?;
    let at = due_class(s, class_of(entry), end, at, out)?;
    due_subclass(s, end, at, out)
}

// "contents common 30, class 30, subclass A0?, type A1".
fn contents(
    s: &[u8],
    entry: u8,
    tag: u8,
    end: usize,
    at: Cursor,
    out: &mut [u8],
) -> Result<Cursor, Refusal>
    requires { InContainer s.now end at.dump at.book }
    ensures { Did out.old out.new at.book at.dump end (contents s.now entry tag end at.dump) result }
{
    let at = attributes(s, entry, end, at, out)?;
    let at = due_type(s, type_of(entry, tag), end, at, out)?;
    ended(s, end, at)
}

// An object.
fn object_body(
    s: &[u8],
    site: Site,
    entry: u8,
    x: Header,
    at: Cursor,
    out: &mut [u8],
) -> Result<Cursor, Refusal>
    requires { InElement s.now at.dump x.1 x.2 at.book }
    ensures { Did out.old out.new at.book x.1 x.2 (object_body s.now site entry x.0 at.dump x.1 x.2) result }
{
    if is_object(x.0) {
        let offset = at.dump.saturating_sub(site.start);
        let book = put_numbers(out, at.book, 0x0120, entry, x.0, site.number, offset as u16);
        return contents(s, entry, x.0, x.2, Cursor { dump: x.1, book }, out);
    }
    Err(Refusal(Fault::NotDue, at.dump))
}

// "At most 128 objects": the object due at `at`, after k objects of the dump.
pub fn object_at(
    s: &[u8],
    site: Site,
    entry: u8,
    k: usize,
    end: usize,
    at: Cursor,
    out: &mut [u8],
) -> Result<Cursor, Refusal>
    requires { InContainer s.now end at.dump at.book }
    ensures { Did out.old out.new at.book at.dump end (object s.now site entry k end at.dump) result × Forward at.dump result }
{
    if 128 <= k {
        return Err(Refusal(Fault::ManyObjects, at.dump));
    }
    let x = header(s, at.dump, end)?;
    object_body(s, site, entry, x, at, out)
}
