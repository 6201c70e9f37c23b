// The services under the names that include/adarbukoi.h declares: each is the library's, and states its clauses again.
#![tactic(auto)]

ghost use Rattle.layouts.specs.Service.{ReadTold, WriteTold};
ghost use Rattle.links.specs.Serving.{ListTold};
ghost use Rattle.adarbukoi.specs.Exports.{Exported, FieldExported, WhyExported};

// A dump into a book.
#[unsafe(no_mangle)]
pub extern "C" fn adarbukoi_read(dump: &[u8], book: &mut [u8], told: &mut u64) -> u32
    ensures { Exported ReadTold dump.now book.old book.new result told.new }
{
    adarbukoi::adarbukoi_read(dump, book, told)
}

// A book into the dump that has it.
#[unsafe(no_mangle)]
pub extern "C" fn adarbukoi_write(book: &[u8], dump: &mut [u8], told: &mut u64) -> u32
    ensures { Exported WriteTold book.now dump.old dump.new result told.new }
{
    adarbukoi::adarbukoi_write(book, dump, told)
}

// The links of a book into lent numbers, four a row.
#[unsafe(no_mangle)]
pub extern "C" fn adarbukoi_list(book: &[u8], rows: &mut [u32], told: &mut u64) -> u32
    ensures { Exported ListTold book.now rows.old rows.new result told.new }
{
    adarbukoi::adarbukoi_list(book, rows, told)
}

// Where a field of a book is; on a refusal the length stays.
#[unsafe(no_mangle)]
pub extern "C" fn adarbukoi_field(
    book: &[u8],
    object: u32,
    kind: u32,
    offset: &mut u64,
    size: &mut u64,
) -> u32
    ensures { FieldExported book.now object kind result offset.new size.old size.new }
{
    adarbukoi::adarbukoi_field(book, object, kind, offset, size)
}

// Why a row of a book's list is as it is; on a refusal answer and kind stay.
#[unsafe(no_mangle)]
pub extern "C" fn adarbukoi_why(
    book: &[u8],
    row: u64,
    answer: &mut u32,
    offset: &mut u64,
    kind: &mut u32,
) -> u32
    ensures { WhyExported book.now row result answer.old answer.new offset.new kind.old kind.new }
{
    adarbukoi::adarbukoi_why(book, row, answer, offset, kind)
}
