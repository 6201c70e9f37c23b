// A line, read from its start.
ghost use Rattle.std.specs.Prelude.{◌≤◌, ◌<◌, length, IfSome};

// What is left of it.
#[derive(Clone, Copy)]
pub struct Text<'a>(pub &'a [u8]);

impl<'a> Text<'a> {
    // The next byte.
    pub fn byte(&mut self) -> Option<u8>
        ensures no_longer { length self.new.0.now ≤ length self.old.0.now }
        ensures shorter { IfSome result (λ _. length self.new.0.now < length self.old.0.now) }
    {
        let (byte, rest) = self.0.split_first()?;
        self.0 = rest;
        Some(*byte)
    }

    // What stands before the first space, which is passed over, or all.
    pub fn word(&mut self) -> &'a [u8]
        ensures no_longer { length self.new.0.now ≤ length self.old.0.now }
    {
        let text = self.0;
        match text.iter().position(|c| *c == b' ') {
            Some(n) => {
                self.0 = &text[n + 1..];
                &text[..n]
            }
            None => {
                self.0 = &[];
                text
            }
        }
    }

    // A number of 32 bits.
    fn number(&mut self, radix: u32) -> Option<u32>
        requires { (2 ≤ radix) × (radix ≤ 36) }
        ensures no_longer { length self.new.0.now ≤ length self.old.0.now }
    {
        let text = self.0;
        let n = text
            .iter()
            .position(|c| !char::from(*c).is_digit(radix))
            .unwrap_or(text.len());
        if n == 0 {
            return None;
        }
        let (digits, rest) = text.split_at(n);
        self.0 = rest;
        let mut number = 0u32;
        for c in digits {
            let digit = char::from(*c).to_digit(radix)?;
            number = number.checked_mul(radix)?.checked_add(digit)?;
        }
        Some(number)
    }

    // A decimal number below a million.
    pub fn decimal(&mut self) -> Option<usize>
        ensures no_longer { length self.new.0.now ≤ length self.old.0.now }
        ensures below { IfSome result (λ n. n < 1000000) }
    {
        let n = self.number(10)?;
        if n < 1000000 { Some(n as usize) } else { None }
    }

    // A decimal number below a million with which the line ends.
    pub fn last(&mut self) -> Option<usize>
        ensures no_longer { length self.new.0.now ≤ length self.old.0.now }
        ensures below { IfSome result (λ n. n < 1000000) }
    {
        let n = self.decimal()?;
        if self.0.is_empty() { Some(n) } else { None }
    }

    // A space, which is passed over, or the end.
    fn space(&mut self) -> Option<()>
        ensures no_longer { length self.new.0.now ≤ length self.old.0.now }
    {
        match self.byte() {
            None | Some(b' ') => Some(()),
            Some(_) => None,
        }
    }

    // A decimal number below a million that stands alone.
    pub fn size(&mut self) -> Option<usize>
        ensures no_longer { length self.new.0.now ≤ length self.old.0.now }
        ensures below { IfSome result (λ n. n < 1000000) }
    {
        let n = self.decimal()?;
        self.space()?;
        Some(n)
    }

    // A hex number of 32 bits that stands alone.
    pub fn key(&mut self) -> Option<u32>
        ensures no_longer { length self.new.0.now ≤ length self.old.0.now }
    {
        let n = self.number(16)?;
        self.space()?;
        Some(n)
    }
}
