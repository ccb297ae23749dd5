// A line of text that grows at its end.
#![tactic(auto)]

pub mod console; // console.rt: text on standard output
pub mod input; // input.rt: bytes from a file or standard input

ghost use Rattle.std.specs.Prelude.{◌∷◌, [], ◌+◌, ◌<◌, ◌≤◌, length};
ghost use Rattle.text.specs.Text.{text_of, decimal, Grown};

#[derive(Clone, Copy)]
pub struct Text {
    pub bytes: [u8; 120],
    pub len: usize,
}

impl Text {
    pub fn new() -> Text
        ensures { Grown [] [] 0 result }
    {
        Text {
            bytes: [0; 120],
            len: 0,
        }
    }

    // One byte more.
    pub fn push(mut self, b: u8) -> Text
        requires { self.len < 120 }
        ensures { Grown (text_of self) (b ∷ []) self.len result }
    {
        let at = self.len;
        self.bytes[at] = b;
        self.len = at + 1;
        self
    }

    // All bytes of a slice.
    pub fn push_all(self, more: &[u8]) -> Text
        requires { self.len + length more.now ≤ 120 }
        ensures { Grown (text_of self) more.now self.len result }
    {
        let mut text = self;
        for b in more {
            text = text.push(*b);
        }
        text
    }

    // A number in decimal, of at most so many digits.
    fn push_digits(self, n: u64, digits: usize) -> Text
        requires { self.len + digits ≤ 120 }
        ensures { Grown (text_of self) (decimal digits n) self.len result }
    {
        if digits == 0 {
            return self;
        }
        if n < 10 {
            return self.push((48 + n) as u8);
        }
        self.push_digits(n / 10, digits - 1)
            .push((48 + n % 10) as u8)
    }

    // A number in decimal: of 64 bits, so of at most 20 digits.
    pub fn push_number(self, n: u64) -> Text
        requires { self.len + 20 ≤ 120 }
        ensures { Grown (text_of self) (decimal 20 n) self.len result }
    {
        self.push_digits(n, 20)
    }
}
