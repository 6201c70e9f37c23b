// What `why` answers of a row.
ghost use Rattle.std.specs.Prelude.{◌≡◌, ◌+◌, ◌*◌, ◌≤◌, length};
ghost use Rattle.rules.specs.Files.{two};
ghost use Rattle.links.specs.Finding.{Lies};
ghost use Rattle.why.specs.Whys.{MetAt, UnmetAt};

// "met, with the book offset of the answering identifier; no object of the right class at all; the value stands in a record .., with the lowest such book offset and its kind; or it stands in no such record".
#[derive(Clone, Copy, Debug, PartialEq, Eq)]
pub enum Why {
    Met(usize, u32),
    NoObject,
    Elsewhere(usize, u32),
    Nowhere,
}

// A kind in two bytes, the low one first.
fn kind_at(b: &[u8], i: usize) -> u32
    requires { i + 2 ≤ length b.now }
    ensures { result ≡ two b.now i }
{
    u32::from(b[i]) + 256 * u32::from(b[i + 1])
}

// The identifier's record that was found answers.
pub fn met_at(b: &[u8], place: Option<usize>) -> Why
    requires { Lies b.now place }
    ensures { MetAt b.now place result }
{
    match place {
        Some(p) => Why::Met(p, kind_at(b, p + 2)),
        None => Why::Nowhere,
    }
}

// The value stands in the record that was found, or there is none.
pub fn unmet_at(b: &[u8], place: Option<usize>) -> Why
    requires { Lies b.now place }
    ensures { UnmetAt b.now place result }
{
    match place {
        Some(p) => Why::Elsewhere(p, kind_at(b, p + 2)),
        None => Why::Nowhere,
    }
}
