ghost use Rattle.std.specs.Prelude.{◌≡◌, ◌≤◌, ◌+◌, length};
ghost use Rattle.rules.specs.Book.{records};
ghost use Rattle.links.specs.Numbers.{number_of};
ghost use Rattle.links.specs.Finding.{Within, objects_at};
ghost use Rattle.links.specs.Chains.{Indexed};
ghost use Rattle.why.specs.Why.{why};
ghost use Rattle.why.specs.Whys.{why_told, WhyTold, Missed, Explained};

use crate::answer::{Why, met_at, unmet_at};
use crate::stands::{is_peopled, stands};
use elements::{Fault, Refusal};
use layouts::is_book;
use links::{Index, Link, put_links};
use rules::record_end;

// Why a link is missing that the record at p states.
fn missed(b: &[u8], link: Link, p: usize, index: &Index) -> Why
    requires { Indexed b.now index.now × Within b.now 0 × (p + 4 ≤ length b.now) }
    ensures { Missed b.now (number_of link) p result }
{
    if !is_peopled(link, index.objects()) {
        return Why::NoObject;
    }
    unmet_at(b, stands(b, link, p + 4, record_end(b, p)))
}

// Why a row is as it is, by its numbers: an answering object is one of the index, and 4,294,967,295 is none.
fn explained(b: &[u8], link: Link, at: u32, answer: u32, index: &Index) -> Why
    requires { Indexed b.now index.now × Within b.now 0 × (at + 4 ≤ length b.now) }
    ensures { Explained b.now (number_of link) at answer index.now result }
{
    match index.objects().get(answer as usize) {
        Some(x) => met_at(b, x.id),
        None => missed(b, link, at as usize, index),
    }
}

// Why a row of the list is as it is, once the objects are indexed: its numbers are put, and no others.
fn row_told(b: &[u8], row: usize, index: &Index) -> Result<Why, Refusal>
    requires { Indexed b.now index.now × Within b.now 0 }
    ensures { result ≡ why_told (why (records b.now) row) }
{
    let mut told = [0u32; 4];
    let rows = put_links(b, index, &mut told, row);
    if rows <= row {
        return Err(Refusal(Fault::NotThere, 0));
    }
    let link = Link::try_from(told[0]).unwrap();
    Ok(explained(b, link, told[2], told[3], index))
}

// Why a row of a book's link list is as it is; or a refusal and its place.
pub fn why(book: &[u8], row: usize) -> Result<Why, Refusal>
    ensures { WhyTold book.now row result }
{
    if !is_book(book) {
        return Err(Refusal(Fault::NoDump, 0));
    }
    row_told(book, row, &Index::of(book))
}
