ghost use Rattle.std.specs.Prelude.{◌+◌, ◌≤◌, length};
ghost use Rattle.rules.specs.Render.{within, r_common, r_class, r_type, r_contents, r_object, r_objects};
ghost use Rattle.rules.specs.Book.{records_from};
ghost use Rattle.makers.specs.Composed.{subclass, attributes};
ghost use Rattle.makers.specs.Making.{Making, Makes, Onward};

use crate::leaf::{make_keep, make_plain, make_sequence};
use crate::made::{Made, TooLong, within};
use crate::make_common::make_common;
use crate::make_type::make_type;
use crate::many::make_each;
use rules::{Class, ObjectType, Sequence, byte_at, class_of, is_next, record_end, type_of};

// What an object of a class has.
fn make_class(b: &[u8], made: Made, c: Class, out: &mut [u8]) -> Result<Made, TooLong>
    requires { Making b.now made.next out.old made.end }
    ensures { Makes b.now out.old out.new made.next made.end (r_class c (records_from b.now made.next)) result }
{
    match c {
        Class::Keys => make_sequence(b, made, Sequence::Key, out),
        Class::Certificates => make_sequence(b, made, Sequence::CertificateAttributes, out),
        Class::Authentications => make_sequence(b, made, Sequence::Authentication, out),
        Class::Containers => make_keep(b, made, 0x0160, out),
    }
}

// Common attributes in their element.
fn common_element(b: &[u8], made: Made, out: &mut [u8]) -> Result<Made, TooLong>
    requires { Making b.now made.next out.old made.end }
    ensures { Makes b.now out.old out.new made.next made.end (within 0x30 r_common (records_from b.now made.next)) result }
{
    within(made, 0x30, out, |made, out| make_common(b, made, out))
}

// The class in its element.
fn class_element(b: &[u8], made: Made, c: Class, out: &mut [u8]) -> Result<Made, TooLong>
    requires { Making b.now made.next out.old made.end }
    ensures { Makes b.now out.old out.new made.next made.end (within 0x30 (r_class c) (records_from b.now made.next)) result }
{
    within(made, 0x30, out, |made, out| make_class(b, made, c, out))
}

// "Subclass: one sealed element inside the A0", if the next record is one's.
fn make_subclass(b: &[u8], made: Made, out: &mut [u8]) -> Result<Made, TooLong>
    requires { Making b.now made.next out.old made.end }
    ensures { Makes b.now out.old out.new made.next made.end (subclass (records_from b.now made.next)) result }
{
    if is_next(b, made.next, 0x0170) {
        return within(made, 0xa0, out, |made, out| make_plain(b, made, out));
    }
    Ok(made)
}

// The type in its element.
fn type_element(b: &[u8], made: Made, t: ObjectType, out: &mut [u8]) -> Result<Made, TooLong>
    requires { Making b.now made.next out.old made.end }
    ensures { Makes b.now out.old out.new made.next made.end (within 0xa1 (r_type t) (records_from b.now made.next)) result }
{
    within(made, 0xa1, out, |made, out| make_type(b, made, t, out))
}

// Common, class and subclass.
fn make_attributes(b: &[u8], made: Made, entry: u8, out: &mut [u8]) -> Result<Made, TooLong>
    requires { Making b.now made.next out.old made.end }
    ensures { Makes b.now out.old out.new made.next made.end (attributes entry (records_from b.now made.next)) result }
{
    let made = common_element(b, made, out)?;
    let made = class_element(b, made, class_of(entry), out)?;
    make_subclass(b, made, out)
}

// "contents common 30, class 30, subclass A0?, type A1".
fn make_contents(b: &[u8], made: Made, entry: u8, tag: u8, out: &mut [u8]) -> Result<Made, TooLong>
    requires { Making b.now made.next out.old made.end }
    ensures { Makes b.now out.old out.new made.next made.end (r_contents entry tag (records_from b.now made.next)) result }
{
    let made = make_attributes(b, made, entry, out)?;
    type_element(b, made, type_of(entry, tag), out)
}

// The object that the next record starts: it tells the tag of its entry and its own.
fn make_object(b: &[u8], made: Made, out: &mut [u8]) -> Result<Made, TooLong>
    requires { (made.next + 4 ≤ length b.now) × Making b.now made.next out.old made.end }
    ensures { Makes b.now out.old out.new made.next made.end (r_object (records_from b.now made.next)) result × Onward b.now made.next result }
{
    let e = record_end(b, made.next);
    let entry = byte_at(b, made.next + 4, e, 0);
    let tag = byte_at(b, made.next + 4, e, 1);
    let behind = Made { next: e, ..made };
    within(
        behind,
        tag,
        out,
        |made, out| make_contents(b, made, entry, tag, out),
    )
}

// Objects, as long as the next record starts one.
pub fn make_objects(b: &[u8], made: Made, out: &mut [u8]) -> Result<Made, TooLong>
    requires { Making b.now made.next out.old made.end }
    ensures { Makes b.now out.old out.new made.next made.end (r_objects (records_from b.now made.next)) result }
{
    make_each(
        b,
        made,
        &[0x0120],
        out,
        |made, out| make_object(b, made, out),
    )
}
