ghost use Rattle.std.specs.Prelude.{◌≡◌, ◌≤◌, length};
ghost use Rattle.rules.specs.declared.table.Need.TheVariants.{Required, Optional};
ghost use Rattle.rules.specs.Parts.{component, element};
ghost use Rattle.rules.specs.Objects.{path, private_key, certificate_value, certificate, password, type_part, type_body};
ghost use Rattle.objects.specs.Composed.{password_parts};
ghost use Rattle.objects.specs.Did.{Did, Inside, both_flags, InElement, InContainer};

use crate::class::any_sealed;
use crate::keep::{ended, rest, rest_in, sealed};
use crate::part::{Cursor, due};
use crate::path::{due_path, path};
use crate::row::components;
use elements::{Fault, Form, Header, Number, Read, Refusal, header};
use rules::{Need, ObjectType, Sequence};

// "Private key, as 30 { Path, modulusLength, rest }": its contents.
fn private_key(s: &[u8], end: usize, at: Cursor, out: &mut [u8]) -> Result<Cursor, Refusal>
    requires { InContainer s.now end at.dump at.book }
    ensures { Inside out.old out.new at.book at.dump end (private_key s.now) result }
{
    let at = due_path(s, Sequence::Path, 0x30, Need::Required, end, at, out)?;
    let at = components(s, Sequence::PrivateKeyAttributes, end, at, out)?;
    rest_in(s, Sequence::PrivateKeyAttributes, end, at, out)
}

// "Path where the first element has tag 30, otherwise that element sealed".
fn certificate_value(s: &[u8], end: usize, at: Cursor, out: &mut [u8]) -> Result<Cursor, Refusal>
    requires { InContainer s.now end at.dump at.book }
    ensures { Did out.old out.new at.book at.dump end (element s.now (certificate_value s.now) end at.dump) result }
{
    let x = header(s, at.dump, end)?;
    if x.0 == 0x30 {
        return path(s, Sequence::Path, x, at, out);
    }
    sealed(s, 0x0184, x, at, out)
}

// "Certificate, as 30 { .., rest }": its contents.
fn certificate(s: &[u8], end: usize, at: Cursor, out: &mut [u8]) -> Result<Cursor, Refusal>
    requires { InContainer s.now end at.dump at.book }
    ensures { Inside out.old out.new at.book at.dump end (certificate s.now) result }
{
    let at = certificate_value(s, end, at, out)?;
    rest(s, 0x018f, &[], end, at, out)
}

// Whether the flag word of the element at a has bits 6 and 7 both set.
fn both_flags(s: &[u8], a: usize, e: usize) -> bool
    requires { e ≤ length s.now }
    ensures { result ≡ both_flags s.now a e }
{
    match elements::element(Form::Bits, 0x03, s, a, e) {
        Ok(Read(Number(_, m), _)) => m / 64 % 4 == 3,
        Err(_) => false,
    }
}

// The components of password attributes, their Path and their rest.
fn password_parts(s: &[u8], end: usize, at: Cursor, out: &mut [u8]) -> Result<Cursor, Refusal>
    requires { InContainer s.now end at.dump at.book }
    ensures { Did out.old out.new at.book at.dump end (password_parts s.now end at.dump) result }
{
    let at = components(s, Sequence::PasswordAttributes, end, at, out)?;
    let at = due_path(s, Sequence::Path, 0x30, Need::Optional, end, at, out)?;
    rest_in(s, Sequence::PasswordAttributes, end, at, out)
}

// "Password": its attributes; pwdFlags bits 6 and 7 are not both set.
fn password(s: &[u8], x: Header, at: Cursor, out: &mut [u8]) -> Result<Cursor, Refusal>
    requires { InElement s.now at.dump x.1 x.2 at.book }
    ensures { Did out.old out.new at.book x.1 x.2 (password s.now at.dump x.1 x.2) result }
{
    let n = password_parts(s, x.2, Cursor { dump: x.1, ..at }, out)?;
    if both_flags(s, x.1, x.2) {
        return Err(Refusal(Fault::PasswordFlags, at.dump));
    }
    Ok(n)
}

// A private key where it is due.
fn due_private(s: &[u8], end: usize, at: Cursor, out: &mut [u8]) -> Result<Cursor, Refusal>
    requires { InContainer s.now end at.dump at.book }
    ensures { Did out.old out.new at.book at.dump end (component s.now 0x30 Required (private_key s.now) end at.dump) result }
{
    due(
        s,
        0x30,
        Need::Required,
        end,
        at,
        out,
        |x, at, out| private_key(s, x.2, at, out),
    )
}

// A certificate where it is due.
fn due_certificate(s: &[u8], end: usize, at: Cursor, out: &mut [u8]) -> Result<Cursor, Refusal>
    requires { InContainer s.now end at.dump at.book }
    ensures { Did out.old out.new at.book at.dump end (component s.now 0x30 Required (certificate s.now) end at.dump) result }
{
    due(
        s,
        0x30,
        Need::Required,
        end,
        at,
        out,
        |x, at, out| certificate(s, x.2, at, out),
    )
}

// A password where it is due.
fn due_password(s: &[u8], end: usize, at: Cursor, out: &mut [u8]) -> Result<Cursor, Refusal>
    requires { InContainer s.now end at.dump at.book }
    ensures { Did out.old out.new at.book at.dump end (component s.now 0x30 Required (password s.now) end at.dump) result }
{
    due(
        s,
        0x30,
        Need::Required,
        end,
        at,
        out,
        |x, _, out| password(s, x, at, out),
    )
}

// The one element that a type is.
fn type_part(
    s: &[u8],
    y: ObjectType,
    end: usize,
    at: Cursor,
    out: &mut [u8],
) -> Result<Cursor, Refusal>
    requires { InContainer s.now end at.dump at.book }
    ensures { Did out.old out.new at.book at.dump end (type_part s.now y end at.dump) result }
{
    match y {
        ObjectType::PrivateKey => due_private(s, end, at, out),
        ObjectType::Certificate => due_certificate(s, end, at, out),
        ObjectType::Password => due_password(s, end, at, out),
        ObjectType::Sealed => any_sealed(s, 0x01a0, end, at, out),
    }
}

// "Type is one element": its contents.
fn type_body(
    s: &[u8],
    y: ObjectType,
    end: usize,
    at: Cursor,
    out: &mut [u8],
) -> Result<Cursor, Refusal>
    requires { InContainer s.now end at.dump at.book }
    ensures { Inside out.old out.new at.book at.dump end (type_body s.now y) result }
{
    let at = type_part(s, y, end, at, out)?;
    ended(s, end, at)
}

// The type where it is due.
pub fn due_type(
    s: &[u8],
    y: ObjectType,
    end: usize,
    at: Cursor,
    out: &mut [u8],
) -> Result<Cursor, Refusal>
    requires { InContainer s.now end at.dump at.book }
    ensures { Did out.old out.new at.book at.dump end (component s.now 0xa1 Required (type_body s.now y) end at.dump) result }
{
    due(
        s,
        0xa1,
        Need::Required,
        end,
        at,
        out,
        |x, at, out| type_body(s, y, x.2, at, out),
    )
}
