// Elements: their headers, runs and values, and what is written back.
ghost use Rattle.std.specs.Prelude.{◌≤◌, ◌≡◌, length};

use crate::show::Hex;
use crate::stop::Stop;
use elements::{
    Form, Header, Number, Read, element, put_boolean, put_flags, put_header, put_integer,
    put_length, put_part, sealed,
};
use std::io;

// The shortest length field of the number.
pub fn length(rt: &impl Print, n: usize) -> io::Result<()> {
    let mut space = [0u8; 3];
    let p = put_length(&mut space, 0, n);
    let bytes = Hex(&space[..p]);
    print!(rt; "{bytes}")
}

// The element's header at the start of s.
pub fn header(rt: &impl Print, s: &[u8]) -> Result<(), Stop> {
    let Header(tag, from, to) = elements::header(s, 0, s.len())?;
    print!(rt; "tag {tag:02x} from {from} to {to}")?;
    Ok(())
}

// Sealed elements, of which none has a first byte of these.
pub fn run(rt: &impl Print, s: &[u8], kept_out: &[u8]) -> Result<(), Stop> {
    let end = sealed(s, 0, s.len(), 16, kept_out)?;
    print!(rt; "sealed to {end}")?;
    Ok(())
}

// The contents of a value, where its form has a way back from a number.
fn put_value(f: Form, out: &mut [u8], negative: bool, m: u32) -> usize
    ensures { (result ≤ 5) × (length out.new ≡ length out.old) }
{
    match f {
        Form::Boolean => put_boolean(out, 0, m),
        Form::Integer => put_integer(out, 0, negative, m),
        Form::Bits => put_flags(out, 0, m),
        Form::Null | Form::Text | Form::Time | Form::Octets => 0,
    }
}

// The element at the start of s: its value, by sign and magnitude.
pub fn read(rt: &impl Print, f: Form, tag: u8, s: &[u8]) -> Result<(bool, u32), Stop> {
    let Read(Number(negative, m), next) = element(f, tag, s, 0, s.len())?;
    let sign = if negative { "-" } else { "" };
    print!(rt; "{sign}{m} next {next}")?;
    Ok((negative, m))
}

// The same for a form of numbers, and what was read written back into so many bytes, all EE before; of more than 16 it
// is not.
pub fn number(rt: &impl Print, f: Form, tag: u8, s: &[u8], room: usize) -> Result<(), Stop> {
    let (negative, m) = read(rt, f, tag, s)?;
    let mut space = [0xeeu8; 16];
    let Some(out) = space.get_mut(..room) else {
        return Ok(());
    };
    let mut contents = [0u8; 5];
    let n = put_value(f, &mut contents, negative, m);
    let p = put_header(out, 0, tag, n);
    let q = put_part(out, p, &contents, 0, n);
    let out = Hex(out);
    print!(rt; " back {out} to {q}")?;
    Ok(())
}
