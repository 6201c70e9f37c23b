ghost use Rattle.std.specs.Prelude.{◌≡◌, ◌≤◌, length};
ghost use Rattle.rules.specs.Book.{records};
ghost use Rattle.layouts.specs.Service.{Gives};
ghost use Rattle.links.specs.Links.{links, listed};
ghost use Rattle.links.specs.Finding.{Within, objects_at};
ghost use Rattle.links.specs.Chains.{Indexed};
ghost use Rattle.links.specs.Serving.{ListTold};

use crate::index::Index;
use crate::rows::put_links;
use elements::{Fault, Refusal};
use layouts::is_book;

// How many numbers the list has: it is put where there is no room.
fn numbers(b: &[u8], index: &Index) -> usize
    requires { Indexed b.now index.now × Within b.now 0 }
    ensures { result ≡ length (listed (links (records b.now))) }
{
    let mut nothing = [0u32; 0];
    4 * put_links(b, index, &mut nothing, 0)
}

// The links of an accepted book: how many numbers there are, and then, if there is room, the numbers.
fn list_by(b: &[u8], rows: &mut [u32]) -> Result<usize, Refusal>
    requires { Within b.now 0 × (length (objects_at b.now 0) ≤ 128) }
    ensures { Gives (listed (links (records b.now))) rows.old rows.new result }
{
    let index = Index::of(b);
    let m = numbers(b, &index);
    if rows.len() < m {
        return Err(Refusal(Fault::NoRoom, m));
    }
    put_links(b, &index, rows, 0);
    Ok(m)
}

// The links of a book into lent numbers, four a row.
pub fn list(book: &[u8], rows: &mut [u32]) -> Result<usize, Refusal>
    ensures { ListTold book.now rows.old rows.new result }
{
    if !is_book(book) {
        return Err(Refusal(Fault::NoDump, 0));
    }
    list_by(book, rows)
}
