ghost use Rattle.std.specs.Prelude.{◌≡◌, ◌&&◌, [], ◌∷◌, ◌+◌, ◌*◌, ◌≤◌, length, leb};
ghost use Rattle.rules.specs.declared.table.Need.TheVariants.{Required};
ghost use Rattle.rules.specs.Reading.{◌then◌};
ghost use Rattle.rules.specs.Parts.{component, element, ended, sealed};
ghost use Rattle.rules.specs.Files.{named_path, entry_inside, entry_body, od};
ghost use Rattle.objects.specs.Did.{Did, InElement, InContainer};
ghost use Rattle.files.specs.Filing.{DidObjects, DidEntries, ForwardMany, inlined, known_entry, entry_at, entries_at};

use crate::answer::Entries;
use crate::fills::{fill, goes_on};
use crate::holder::{Holder, objects};
use crate::scan::first_again;
use elements::{Fault, Header, Refusal, header};
use objects::{Cursor, due, ended, inner_run, put_behind, put_two};
use rules::{Need, Site};

// "An EF.OD path holds one OCTET STRING of 1 to 64 bytes": the element x at `at`.
fn named_path(s: &[u8], entry: u8, x: Header, at: Cursor, out: &mut [u8]) -> Result<Cursor, Refusal>
    requires { InElement s.now at.dump x.1 x.2 at.book }
    ensures { Did out.old out.new at.book x.1 x.2 (named_path s.now entry at.dump x.1 x.2) result }
{
    match x.2 - x.1 {
        1..=64 => Ok(Cursor {
            dump: x.2,
            book: put_behind(out, at.book, 0x0110, entry, 0, s, x.1, x.2),
        }),
        _ => Err(Refusal(Fault::BadSize, at.dump)),
    }
}

fn due_named(s: &[u8], entry: u8, end: usize, at: Cursor, out: &mut [u8]) -> Result<Cursor, Refusal>
    requires { InContainer s.now end at.dump at.book }
    ensures { Did out.old out.new at.book at.dump end (component s.now 0x04 Required (named_path s.now entry) end at.dump) result }
{
    due(s, 0x04, Need::Required, end, at, out, |x, inside, out| {
        named_path(
            s,
            entry,
            x,
            Cursor {
                dump: at.dump,
                ..inside
            },
            out,
        )
    })
}

// A path "and nothing more".
fn path_entry(
    s: &[u8],
    entry: u8,
    end: usize,
    at: Cursor,
    out: &mut [u8],
) -> Result<Cursor, Refusal>
    requires { InContainer s.now end at.dump at.book }
    ensures { Did out.old out.new at.book at.dump end ((component s.now 0x04 Required (named_path s.now entry) then ended s.now) end at.dump) result }
{
    let at = due_named(s, entry, end, at, out)?;
    ended(s, end, at)
}

// Objects in EF.OD itself: the element x at `at`.
fn inline(
    s: &[u8],
    site: Site,
    entry: u8,
    k: usize,
    x: Header,
    at: Cursor,
    out: &mut [u8],
    marks: &mut [u32],
) -> Result<(Cursor, usize), Refusal>
    requires { (k ≤ 128) × InElement s.now at.dump x.1 x.2 at.book }
    ensures { DidObjects out.old out.new marks.old marks.new at.book x.1 x.2 k (inlined s.now site entry k x.2 x.1) result }
{
    let book = put_two(out, at.book, 0x0110, entry, 1);
    objects(
        s,
        Holder::List,
        site,
        entry,
        k,
        x.2,
        Cursor { dump: x.1, book },
        out,
        marks,
    )
}

// "Inside is a Path 30 or objects A0".
fn entry_inside(
    s: &[u8],
    site: Site,
    entry: u8,
    k: usize,
    end: usize,
    at: Cursor,
    out: &mut [u8],
    marks: &mut [u32],
) -> Result<(Cursor, usize), Refusal>
    requires { (k ≤ 128) × InContainer s.now end at.dump at.book }
    ensures { DidObjects out.old out.new marks.old marks.new at.book at.dump end k (element s.now (entry_inside site s.now entry k) end at.dump) result }
{
    let x = header(s, at.dump, end)?;
    match x.0 {
        0x30 => {
            let at = path_entry(
                s,
                entry,
                x.2,
                Cursor {
                    dump: x.1,
                    book: at.book,
                },
                out,
            )?;
            Ok((at, k))
        }
        0xa0 => inline(s, site, entry, k, x, at, out, marks),
        _ => Err(Refusal(Fault::NotDue, at.dump)),
    }
}

// An entry of a class: its contents, from a place to their end.
fn known_entry(
    s: &[u8],
    site: Site,
    entry: u8,
    k: usize,
    end: usize,
    at: Cursor,
    out: &mut [u8],
    marks: &mut [u32],
) -> Result<(Cursor, usize), Refusal>
    requires { (k ≤ 128) × InContainer s.now end at.dump at.book }
    ensures { DidObjects out.old out.new marks.old marks.new at.book at.dump end k (known_entry site s.now entry k end at.dump) result }
{
    let (at, j) = entry_inside(s, site, entry, k, end, at, out, marks)?;
    let at = ended(s, end, at)?;
    Ok((at, j))
}

// "Any other context-specific tag": kept sealed.
fn unknown_entry(s: &[u8], x: Header, at: Cursor, out: &mut [u8]) -> Result<Cursor, Refusal>
    requires { InElement s.now at.dump x.1 x.2 at.book }
    ensures { Did out.old out.new at.book x.1 x.2 (sealed s.now 0x0110 (x.0 ∷ 2 ∷ []) x.0 at.dump x.1 x.2) result }
{
    inner_run(s, x)?;
    Ok(Cursor {
        dump: x.2,
        book: put_behind(out, at.book, 0x0110, x.0, 2, s, at.dump, x.2),
    })
}

// "entries A0 to A8".
fn is_known(t: u8) -> bool
    ensures { result ≡ (leb 0xa0 t && leb t 0xa8) }
{
    match t {
        0xa0..=0xa8 => true,
        _ => false,
    }
}

// "context-specific".
fn is_context(t: u8) -> bool
    ensures { result ≡ (leb 0x80 t && leb t 0xbf) }
{
    match t {
        0x80..=0xbf => true,
        _ => false,
    }
}

// An entry, the element x at `at`.
fn entry_body(
    s: &[u8],
    site: Site,
    k: usize,
    x: Header,
    at: Cursor,
    out: &mut [u8],
    marks: &mut [u32],
) -> Result<(Cursor, usize), Refusal>
    requires { (k ≤ 128) × InElement s.now at.dump x.1 x.2 at.book }
    ensures { DidObjects out.old out.new marks.old marks.new at.book x.1 x.2 k (entry_body site s.now k x.0 at.dump x.1 x.2) result }
{
    if is_known(x.0) {
        return known_entry(
            s,
            site,
            x.0,
            k,
            x.2,
            Cursor {
                dump: x.1,
                book: at.book,
            },
            out,
            marks,
        );
    }
    if is_context(x.0) {
        let at = unknown_entry(s, x, at, out)?;
        return Ok((at, k));
    }
    Err(Refusal(Fault::NotDue, at.dump))
}

// An entry of EF.OD, after k objects.
fn entry(
    s: &[u8],
    site: Site,
    k: usize,
    end: usize,
    at: Cursor,
    out: &mut [u8],
    marks: &mut [u32],
) -> Result<(Cursor, usize), Refusal>
    requires { (k ≤ 128) × InContainer s.now end at.dump at.book }
    ensures { DidObjects out.old out.new marks.old marks.new at.book at.dump end k (entry_at site s.now k end at.dump) result × ForwardMany at.dump result }
{
    let x = header(s, at.dump, end)?;
    entry_body(s, site, k, x, at, out, marks)
}

// EF.OD's entries, up to its fill.
fn entries(
    s: &[u8],
    site: Site,
    end: usize,
    from: Cursor,
    out: &mut [u8],
    marks: &mut [u32],
) -> Result<Entries, Refusal>
    requires { InContainer s.now end from.dump from.book × (from.book + 3 ≤ 4 * from.dump) × (131072 ≤ length out.old) }
    ensures { DidEntries s.now out.old out.new marks.old marks.new from.book from.dump end (entries_at site s.now end from.dump) result }
{
    let mut k = 0;
    let mut at = from;
    let mut again = None;
    while goes_on(s, end, at.dump) {
        let (next, j) = entry(s, site, k, end, at, out, marks)?;
        again = first_again(out, from.book, at.book, at.dump, again);
        k = j;
        at = next;
    }
    Ok(Entries {
        at,
        objects: k,
        again,
    })
}

// EF.OD's file.
pub fn object_directory(
    s: &[u8],
    end: usize,
    at: Cursor,
    out: &mut [u8],
    marks: &mut [u32],
) -> Result<Entries, Refusal>
    requires { InContainer s.now end at.dump at.book × (at.book + 3 ≤ 4 * at.dump) × (131072 ≤ length out.old) }
    ensures { DidEntries s.now out.old out.new marks.old marks.new at.book at.dump end (od s.now end at.dump) result }
{
    let site = Site {
        number: 0,
        start: at.dump,
    };
    let read = entries(s, site, end, at, out, marks)?;
    let at = fill(s, 0x0107, end, read.at, out)?;
    Ok(Entries { at, ..read })
}
