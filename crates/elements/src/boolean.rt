ghost use Rattle.std.specs.Prelude.{◌≡◌, ◌+◌, ◌^◌, ◌<◌};
ghost use Rattle.elements.specs.Boolean.{boolean, boolean_bytes};
ghost use Rattle.elements.specs.Put.{Put};

use crate::answer::Number;
use crate::fault::Fault;
use crate::store::put;

// BOOLEAN from its contents.
pub fn boolean(c: &[u8]) -> Result<Number, Fault>
    ensures { result ≡ boolean c.now }
{
    if c.len() == 1 {
        let x = c[0];
        if x == 0 {
            return Ok(Number(false, 0));
        }
        if x == 255 {
            return Ok(Number(false, 1));
        }
        return Err(Fault::BadBoolean);
    }
    Err(Fault::BadBoolean)
}

// The contents of a BOOLEAN: 0 is FALSE, any other number TRUE.
pub fn put_boolean(out: &mut [u8], o: usize, v: u32) -> usize
    requires { o < 2 ^ 63 }
    ensures { (result ≡ o + 1) × Put out.old out.new o result (boolean_bytes v) }
{
    if v == 0 {
        return put(out, o, 0);
    }
    put(out, o, 255)
}
