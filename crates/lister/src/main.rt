// Prints the links of a card, document 01's lines, or why a row of them is as it is, or where its objects stand. The
// card stands on standard input: its dump, or, where one of the latter two is asked, its dump or its book.
//   lister          the list
//   lister why      the list, with the answer of why behind each row that is missing
//   lister why ROW  that answer of one row
//   lister where    where each object stands
#![tactic(auto)]

mod ask;
mod places;
mod records;
mod show;

use ask::Question;
use elements::{Fault, Refusal};
use input::read_full;
use show::refused;
use std::io;

// A card's dump and its book.
#[derive(Clone, Copy)]
struct Card<'a> {
    dump: &'a [u8],
    book: &'a [u8],
}

// The card that a dump or a book holds, its other in lent bytes.
fn card_of<'a>(given: &'a [u8], is_book: bool, other: &'a mut [u8]) -> Result<Card<'a>, Refusal> {
    if is_book {
        let n = layouts::write(given, other)?;
        return Ok(Card {
            dump: &other[..n],
            book: given,
        });
    }
    let n = layouts::read(given, other)?;
    Ok(Card {
        dump: given,
        book: &other[..n],
    })
}

// The list in lent numbers.
fn listed(rt: &impl Print, book: &[u8], rows: &mut [u32], whys: bool) -> io::Result<()> {
    match links::list(book, rows) {
        Err(e) => refused(rt, e),
        Ok(n) => show::links(rt, book, &rows[..n], whys),
    }
}

// Why row n is as it is; no list has a row None.
fn reason(rt: &impl Print, book: &[u8], n: Option<usize>) -> io::Result<()> {
    let none = Err(Refusal(Fault::NotThere, 0));
    show::reason(rt, n.map_or(none, |n| why::why(book, n)))
}

// What is asked of a card.
fn answer(rt: &impl Print, asked: Question, card: Card, rows: &mut [u32]) -> io::Result<()> {
    match asked {
        Question::List => listed(rt, card.book, rows, false),
        Question::Whys => listed(rt, card.book, rows, true),
        Question::Row(n) => reason(rt, card.book, n),
        Question::Where => places::objects(rt, card.dump, card.book),
    }
}

fn main(rt: HostRuntime) -> io::Result<()> {
    // one byte more than a book may have: of a longer input the first 131,073 bytes are refused like the whole
    let mut given = [0u8; 131073];
    let n = read_full(&mut rt.stdin(), &mut given)?;
    let given = &given[..n];
    // the other of the two, its book or its dump
    let mut other = [0u8; 65536];
    let mut rows = [0u32; 16384];
    let asked = ask::asked(&rt);
    match card_of(given, ask::of_a_book(asked, given), &mut other) {
        Err(e) => refused(&rt, e),
        Ok(card) => answer(&rt, asked, card, &mut rows),
    }
}
