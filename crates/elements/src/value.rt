ghost use Rattle.std.specs.Prelude.{◌≡◌, ◌≤◌, length};
ghost use Rattle.std.proofs.Math.Seq.{slice};
ghost use Rattle.elements.specs.Told.{told};
ghost use Rattle.elements.specs.Values.{null, value, placed, element};

use crate::answer::{Form, Header, Number, Read, Refusal};
use crate::bits::bits;
use crate::boolean::boolean;
use crate::fault::Fault;
use crate::headers::header;
use crate::integer::integer;
use crate::text::text;
use crate::time::time;

// A count as a value.
pub fn told(n: u64) -> Result<Number, Fault>
    ensures { result ≡ told n }
{
    if n < 4294967295 {
        return Ok(Number(false, n as u32));
    }
    Ok(Number(false, 4294967295))
}

fn null(c: &[u8]) -> Result<Number, Fault>
    ensures { result ≡ null c.now }
{
    if c.len() == 0 {
        return Ok(Number(false, 0));
    }
    Err(Fault::BadNull)
}

// What contents say in a form.
pub fn value(f: Form, c: &[u8]) -> Result<Number, Fault>
    ensures { result ≡ value f c.now }
{
    match f {
        Form::Boolean => boolean(c),
        Form::Integer => integer(c),
        Form::Bits => bits(c),
        Form::Null => null(c),
        Form::Text => text(c),
        Form::Time => time(c),
        Form::Octets => told(c.len() as u64),
    }
}

// The value of the element at `at`, whose contents are from a to e.
pub fn value_at(f: Form, s: &[u8], at: usize, a: usize, e: usize) -> Result<Read, Refusal>
    requires { (a ≤ e) × (e ≤ length s.now) }
    ensures { result ≡ placed at e (value f (slice a e s.now)) }
{
    match value(f, &s[a..e]) {
        Ok(n) => Ok(Read(n, e)),
        Err(x) => Err(Refusal(x, at)),
    }
}

// One element of a tag and a form, at `at` in a container that ends at `end`.
pub fn element(f: Form, tag: u8, s: &[u8], at: usize, end: usize) -> Result<Read, Refusal>
    requires { end ≤ length s.now }
    ensures { result ≡ element f tag s.now at end }
{
    let Header(b, a, e) = header(s, at, end)?;
    if b == tag {
        return value_at(f, s, at, a, e);
    }
    Err(Refusal(Fault::NotDue, at))
}
