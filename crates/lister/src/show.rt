// "Header: the row count. Line: link, object, book offset, answering object or `-`."
use elements::Refusal;
use links::{Link, NoLink};
use std::{fmt, io};
use why::Why;

// A refusal: its number and its place.
pub fn refused(rt: &impl Print, e: Refusal) -> io::Result<()> {
    let Refusal(fault, place) = e;
    println!(rt; "refused {fault} {place}")
}

// Why a row is as it is: "met 97 0150", "no object of the class", "elsewhere 94 0130", "nowhere"
#[derive(Clone, Copy)]
struct Told(Why);

impl fmt::Display for Told {
    fn fmt<W: fmt::Write>(&self, f: &mut fmt::Formatter<W>) -> fmt::Result {
        match self.0 {
            Why::Met(place, kind) => write!(f, "met {place} {kind:04x}"),
            Why::NoObject => write!(f, "no object of the class"),
            Why::Elsewhere(place, kind) => write!(f, "elsewhere {place} {kind:04x}"),
            Why::Nowhere => write!(f, "nowhere"),
        }
    }
}

// What stands in a row for an answer that is missing.
const MISSING: u32 = u32::MAX;

// Why a row is as it is, or that there is no such row.
pub fn reason(rt: &impl Print, why: Result<Why, Refusal>) -> io::Result<()> {
    match why {
        Ok(why) => {
            let told = Told(why);
            println!(rt; "{told}")
        }
        Err(e) => refused(rt, e),
    }
}

// A link's name, as the number that stands in a row.
fn link(rt: &impl Print, n: u32) -> io::Result<()> {
    match Link::try_from(n) {
        Ok(link) => print!(rt; "{link}"),
        Err(NoLink(n)) => print!(rt; "{n}"),
    }
}

// The rows of four numbers; behind a missing answer, if it is asked for, why.
pub fn links(rt: &impl Print, book: &[u8], numbers: &[u32], whys: bool) -> io::Result<()> {
    let (rows, _) = numbers.as_chunks::<4>();
    println!(rt; "links {}", rows.len())?;
    for (r, row) in rows.iter().enumerate() {
        let [n, object, place, answer] = *row;
        link(rt, n)?;
        print!(rt; " {object} {place} ")?;
        if answer != MISSING {
            println!(rt; "{answer}")?;
        } else if whys {
            print!(rt; "- ")?;
            reason(rt, why::why(book, r))?;
        } else {
            println!(rt; "-")?;
        }
    }
    Ok(())
}
