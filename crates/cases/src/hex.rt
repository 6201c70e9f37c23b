// The bytes of a case: pairs of hex digits; a space is passed over. *N behind a pair repeats its byte to N in all, and
// behind a group (..) all that the group holds; there is no group in a group. A text with anything else in it is no case.
ghost use Rattle.std.specs.Prelude.{◌≤◌, ◌≡◌, length, IfSome};
ghost use Rattle.std.proofs.Props.{props};

use crate::text::Text;

// The bytes so far, in a lent slice.
#[derive(Drop)]
struct Bytes<'a> {
    lent: &'a mut [u8],
    // how many there are
    count: usize,
    // where those start that *N would repeat
    unit: usize,
    // where those of the group that is open start
    group: Option<usize>,
    ghost within: { (count ≤ length lent.now) × (unit ≤ count) },
    ghost group_within: { IfSome group (λ g. g ≤ count) } by { Prim.hlevel props },
}

impl Bytes<'_> {
    // One more byte, if there is room.
    fn push(&mut self, byte: u8) -> Option<()>
        ensures grows { self.old.count ≤ self.new.count }
        ensures kept { length self.new.lent.now ≡ length self.old.lent.now }
    {
        if self.lent.len() <= self.count {
            return None;
        }
        self.lent[self.count] = byte;
        self.count += 1;
        Some(())
    }

    // At a pair of digits: their byte.
    fn pair(&mut self, high: u8, low: u8) -> Option<()>
        ensures grows { self.old.count ≤ self.new.count }
        ensures kept { length self.new.lent.now ≡ length self.old.lent.now }
    {
        let high = char::from(high).to_digit(16)?;
        let low = char::from(low).to_digit(16)?;
        self.unit = self.count;
        self.push((high * 16 + low) as u8)
    }

    // At (: a group starts with the next byte, and there is nothing yet that could be repeated.
    fn open(&mut self) -> Option<()>
        ensures same { self.new.count ≡ self.old.count }
        ensures kept { length self.new.lent.now ≡ length self.old.lent.now }
    {
        if self.group.is_some() {
            return None;
        }
        self.unit = self.count;
        self.group = Some(self.count);
        Some(())
    }

    // At ): the group is what *N would repeat.
    fn close(&mut self) -> Option<()>
        ensures same { self.new.count ≡ self.old.count }
        ensures kept { length self.new.lent.now ≡ length self.old.lent.now }
    {
        self.unit = self.group.take()?;
        Some(())
    }

    // At *N, if N is not 0, and there is something to repeat. What was repeated is not repeated once more.
    fn repeat(&mut self, times: usize) -> Option<()>
        ensures grows { self.old.count ≤ self.new.count }
        ensures kept { length self.new.lent.now ≡ length self.old.lent.now }
    {
        let from = self.unit;
        let to = self.count;
        if times == 0 || from == to {
            return None;
        }
        for _turn in 1..times {
            for i in from..to {
                let byte = self.lent[i];
                self.push(byte)?;
            }
        }
        self.unit = self.count;
        Some(())
    }
}

// The bytes of the text, in the lent slice; none if it is no case, or has more than the slice.
pub fn decode<'a>(mut text: Text, lent: &'a mut [u8]) -> Option<&'a [u8]>
    ensures { IfSome result (λ bytes. length bytes.now ≤ length lent.old) }
{
    let mut bytes = Bytes {
        lent,
        count: 0,
        unit: 0,
        group: None,
    };
    while let Some(c) = text.byte() {
        match c {
            b' ' => {}
            b'(' => bytes.open()?,
            b')' => bytes.close()?,
            b'*' => bytes.repeat(text.decimal()?)?,
            _ => bytes.pair(c, text.byte()?)?,
        }
    }
    let Bytes {
        lent,
        count,
        group,
        ..
    } = bytes;
    match group {
        Some(_) => None,
        None => Some(&lent[..count]),
    }
}
