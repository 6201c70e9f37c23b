ghost use Rattle.std.specs.Prelude.{◌≡◌, true, ◌+◌, ◌*◌, ◌≤◌};
ghost use Rattle.rules.specs.Files.{to_fill, dir};
ghost use Rattle.objects.specs.Did.{Did, Forward, InContainer};
ghost use Rattle.templates.specs.Templates.{item, items, headed_items};

use crate::template::template;
use elements::{Refusal, header};
use files::{fill, goes_on};
use objects::{Cursor, put_bare, sealed};

// An element of EF.DIR: a template, or another, which is sealed.
fn item(s: &[u8], end: usize, at: Cursor, out: &mut [u8]) -> Result<Cursor, Refusal>
    requires { (to_fill s.now end at.dump ≡ true) × InContainer s.now end at.dump at.book }
    ensures { Did out.old out.new at.book at.dump end (item s.now end at.dump) result × Forward at.dump result }
{
    let x = header(s, at.dump, end)?;
    if x.0 == 0x61 {
        return template(
            s,
            x.2,
            Cursor {
                dump: x.1,
                book: at.book,
            },
            out,
        );
    }
    sealed(s, 0x0211, x, at, out)
}

// Its elements, up to its fill.
fn items(s: &[u8], end: usize, from: Cursor, out: &mut [u8]) -> Result<Cursor, Refusal>
    requires { InContainer s.now end from.dump from.book }
    ensures { Did out.old out.new from.book from.dump end (items s.now end from.dump) result }
{
    let mut at = from;
    while goes_on(s, end, at.dump) {
        at = item(s, end, at, out)?;
    }
    Ok(at)
}

// Its elements behind the record that says that it is there.
fn headed_items(s: &[u8], end: usize, at: Cursor, out: &mut [u8]) -> Result<Cursor, Refusal>
    requires { (at.book + 4 ≤ 8 * at.dump + 131072) × InContainer s.now end at.dump at.book }
    ensures { Did out.old out.new at.book at.dump end (headed_items s.now end at.dump) result }
{
    let book = put_bare(out, at.book, 0x0200);
    items(
        s,
        end,
        Cursor {
            dump: at.dump,
            book,
        },
        out,
    )
}

// EF.DIR's file.
pub fn dir(s: &[u8], end: usize, at: Cursor, out: &mut [u8]) -> Result<Cursor, Refusal>
    requires { (at.book + 4 ≤ 8 * at.dump + 131072) × InContainer s.now end at.dump at.book }
    ensures { Did out.old out.new at.book at.dump end (dir s.now end at.dump) result }
{
    let at = headed_items(s, end, at, out)?;
    fill(s, 0x0212, end, at, out)
}
