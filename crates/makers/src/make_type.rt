ghost use Rattle.std.specs.Prelude.{◌≡◌};
ghost use Rattle.rules.specs.declared.table.Sequence.TheVariants.{Path};
ghost use Rattle.rules.specs.Tables.{rows_of, path_rows_from, path_rows, path_kind, mark};
ghost use Rattle.rules.specs.Render.{within, either, plain, r_private, r_certificate, r_password, r_type};
ghost use Rattle.rules.specs.Book.{records_from};
ghost use Rattle.makers.specs.Composed.{path_of, due_path};
ghost use Rattle.makers.specs.Making.{Making, Makes};

use crate::leaf::{make_keep, make_plain, make_rest_in, make_rows};
use crate::made::{Made, TooLong, within};
use rules::{ObjectType, Sequence, is_next, row_of};

// A Path of that table, in its tag.
fn make_path(b: &[u8], made: Made, q: Sequence, tag: u8, out: &mut [u8]) -> Result<Made, TooLong>
    requires { (rows_of q ≡ path_rows_from (path_kind q)) × Making b.now made.next out.old made.end }
    ensures { Makes b.now out.old out.new made.next made.end (within tag (path_of q) (records_from b.now made.next)) result }
{
    within(made, tag, out, |made, out| make_rows(b, made, q, out))
}

// A Path of that table and tag if the next record is one's.
pub fn make_due_path(
    b: &[u8],
    made: Made,
    q: Sequence,
    tag: u8,
    out: &mut [u8],
) -> Result<Made, TooLong>
    requires { (rows_of q ≡ path_rows_from (path_kind q)) × Making b.now made.next out.old made.end }
    ensures { Makes b.now out.old out.new made.next made.end (due_path q tag (records_from b.now made.next)) result }
{
    let first = row_of(q, 0);
    if is_next(b, made.next, usize::from(first.kind)) {
        return make_path(b, made, q, tag, out);
    }
    Ok(made)
}

// "Private key, as 30 { Path, modulusLength, rest }": what stands inside.
fn make_private(b: &[u8], made: Made, out: &mut [u8]) -> Result<Made, TooLong>
    requires { Making b.now made.next out.old made.end }
    ensures { Makes b.now out.old out.new made.next made.end (r_private (records_from b.now made.next)) result }
{
    let made = make_due_path(b, made, Sequence::Path, 0x30, out)?;
    let made = make_rows(b, made, Sequence::PrivateKeyAttributes, out)?;
    make_rest_in(b, made, Sequence::PrivateKeyAttributes, out)
}

// A Path if the next record is one's, otherwise an element that was sealed.
fn certificate_value(b: &[u8], made: Made, out: &mut [u8]) -> Result<Made, TooLong>
    requires { Making b.now made.next out.old made.end }
    ensures { Makes b.now out.old out.new made.next made.end (either (mark path_rows) (within 0x30 (path_of Path)) plain (records_from b.now made.next)) result }
{
    if is_next(b, made.next, 0x0180) {
        return make_path(b, made, Sequence::Path, 0x30, out);
    }
    make_plain(b, made, out)
}

// "Certificate, as 30 { .., rest }": what stands inside.
fn make_certificate(b: &[u8], made: Made, out: &mut [u8]) -> Result<Made, TooLong>
    requires { Making b.now made.next out.old made.end }
    ensures { Makes b.now out.old out.new made.next made.end (r_certificate (records_from b.now made.next)) result }
{
    let made = certificate_value(b, made, out)?;
    make_keep(b, made, 0x018f, out)
}

// "Password": what stands inside its attributes.
fn make_password(b: &[u8], made: Made, out: &mut [u8]) -> Result<Made, TooLong>
    requires { Making b.now made.next out.old made.end }
    ensures { Makes b.now out.old out.new made.next made.end (r_password (records_from b.now made.next)) result }
{
    let made = make_rows(b, made, Sequence::PasswordAttributes, out)?;
    let made = make_due_path(b, made, Sequence::Path, 0x30, out)?;
    make_rest_in(b, made, Sequence::PasswordAttributes, out)
}

// "Type is one element".
pub fn make_type(b: &[u8], made: Made, t: ObjectType, out: &mut [u8]) -> Result<Made, TooLong>
    requires { Making b.now made.next out.old made.end }
    ensures { Makes b.now out.old out.new made.next made.end (r_type t (records_from b.now made.next)) result }
{
    match t {
        ObjectType::PrivateKey => within(made, 0x30, out, |made, out| make_private(b, made, out)),
        ObjectType::Certificate => within(
            made,
            0x30,
            out,
            |made, out| make_certificate(b, made, out),
        ),
        ObjectType::Password => within(made, 0x30, out, |made, out| make_password(b, made, out)),
        ObjectType::Sealed => make_keep(b, made, 0x01a0, out),
    }
}
