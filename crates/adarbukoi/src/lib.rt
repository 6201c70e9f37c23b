// The five services for C and Rust: numbers, slices, and a number lent for the length or place.
#![tactic(auto)]

ghost use Rattle.std.specs.Prelude.{◌≡◌};
ghost use Rattle.elements.specs.Faults.{number_of};
ghost use Rattle.layouts.specs.Service.{ReadTold, WriteTold};
ghost use Rattle.links.specs.Serving.{ListTold};
ghost use Rattle.adarbukoi.specs.Exports.{Told, Exported, PlaceSaid, FieldExported, WhySaid, WhyExported};

use elements::Refusal;
use links::Place;
use why::Why;

// A refusal's number, with its place.
fn refused(r: Refusal, place: &mut u64) -> u32
    ensures { (result ≡ number_of r.0) × (place.new ≡ r.1) }
{
    *place = r.1 as u64;
    u32::from(r.0)
}

// 0 with the length, or the refusal's number with its place.
fn tell(r: Result<usize, Refusal>, number: &mut u64) -> u32
    ensures { Told r result number.new }
{
    match r {
        Ok(n) => {
            *number = n as u64;
            0
        }
        Err(e) => refused(e, number),
    }
}

// A dump into a book.
pub fn adarbukoi_read(dump: &[u8], book: &mut [u8], told: &mut u64) -> u32
    ensures { Exported ReadTold dump.now book.old book.new result told.new }
{
    tell(layouts::read(dump, book), told)
}

// A book into the dump that has it.
pub fn adarbukoi_write(book: &[u8], dump: &mut [u8], told: &mut u64) -> u32
    ensures { Exported WriteTold book.now dump.old dump.new result told.new }
{
    tell(layouts::write(book, dump), told)
}

// The links of a book into lent numbers, four a row.
pub fn adarbukoi_list(book: &[u8], rows: &mut [u32], told: &mut u64) -> u32
    ensures { Exported ListTold book.now rows.old rows.new result told.new }
{
    tell(links::list(book, rows), told)
}

// A field's payload: its book offset and length.
fn place(r: Result<Place, Refusal>, offset: &mut u64, size: &mut u64) -> u32
    ensures { PlaceSaid r result offset.new size.old size.new }
{
    match r {
        Ok(x) => {
            *offset = x.at as u64;
            *size = x.size as u64;
            0
        }
        Err(e) => refused(e, offset),
    }
}

// Where a field of a book is; on a refusal the length stays.
pub fn adarbukoi_field(book: &[u8], object: u32, kind: u32, offset: &mut u64, size: &mut u64) -> u32
    ensures { FieldExported book.now object kind result offset.new size.old size.new }
{
    place(links::field_place(book, object, kind), offset, size)
}

// An answer of why: 1 met, 2 no object of the class, 3 elsewhere, 4 nowhere; with the record's offset and kind, or 0 and 0.
fn reason(r: Result<Why, Refusal>, answer: &mut u32, offset: &mut u64, kind: &mut u32) -> u32
    ensures { WhySaid r result answer.old answer.new offset.new kind.old kind.new }
{
    let (a, p, k) = match r {
        Ok(Why::Met(p, k)) => (1, p, k),
        Ok(Why::NoObject) => (2, 0, 0),
        Ok(Why::Elsewhere(p, k)) => (3, p, k),
        Ok(Why::Nowhere) => (4, 0, 0),
        Err(e) => return refused(e, offset),
    };
    *answer = a;
    *offset = p as u64;
    *kind = k;
    0
}

// Why a row of a book's list is as it is; on a refusal answer and kind stay.
pub fn adarbukoi_why(
    book: &[u8],
    row: u64,
    answer: &mut u32,
    offset: &mut u64,
    kind: &mut u32,
) -> u32
    ensures { WhyExported book.now row result answer.old answer.new offset.new kind.old kind.new }
{
    reason(why::why(book, row as usize), answer, offset, kind)
}
