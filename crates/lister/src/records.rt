// The records of a dump or a book.
ghost use Rattle.std.specs.Prelude.{◌≡◌, ◌==◌, ◌≤◌, ◌&&◌, nat_le, length};

use rules::record_end;

// A record: where it starts, its kind, and what it holds.
#[derive(Clone, Copy)]
pub struct Record<'a> {
    pub start: usize,
    pub kind: u16,
    pub payload: &'a [u8],
    ghost within: { start ≤ 131072 },
}

impl Record<'_> {
    // "0 for EF.OD, then 1 upward in dump order": whether a dump record of this kind is numbered.
    pub fn is_file(&self) -> bool
        ensures { result ≡ (nat_le 2 self.now.kind && nat_le self.now.kind 4) }
    {
        matches!(self.kind, 2..=4)
    }

    // Whether it is the first of an object's in a book.
    pub fn is_object(&self) -> bool
        ensures { result ≡ self.now.kind == 0x0120 }
    {
        self.kind == 0x0120
    }
}

// The records from `next` on.
#[derive(Drop)]
pub struct Records<'a> {
    bytes: &'a [u8],
    next: usize,
    ghost within: { (next ≤ length bytes.now) × (length bytes.now ≤ 131072) },
}

impl<'a> Iterator for Records<'a> {
    ghost use Rattle.std.specs.Prelude.{◌-◌, length};
    ghost use Rattle.std.specs.Iterator.{at_most};
    ghost use Rattle.lister.specs.Records.{Gives};

    type Item = Record<'a>;

    ghost next_gives = { Gives };

    ghost remaining = { λ s. at_most (length s.bytes.now - s.next) };

    fn next(&mut self) -> Option<Record<'a>> {
        let bytes = self.bytes;
        let start = self.next;
        if bytes.len() < start + 4 {
            return None;
        }
        let end = record_end(bytes, start);
        self.next = end;
        let kind = u16::from_le_bytes([bytes[start + 2], bytes[start + 3]]);
        let payload = &bytes[start + 4..end];
        Some(Record {
            start,
            kind,
            payload,
        })
    }
}

// The records from the start on.
pub fn records_of(bytes: &[u8]) -> Records<'_>
    requires { length bytes.now ≤ 131072 }
    ensures { (result.bytes.now ≡ bytes.now) × (result.next ≡ 0) }
{
    Records { bytes, next: 0 }
}
