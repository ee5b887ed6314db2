// A writer of bytes and of whole numbers in decimal.
// It is no `impl Display`: `fmt` promises its bytes only where it returns `Ok`, and nothing that it does so. A text call cannot fail.
ghost use Rattle.std.specs.Prelude.{◌≡◌, [], ◌∷◌};
ghost use Rattle.text.specs.Decimal.{digits};
ghost use Rattle.text.specs.Put.{Put};

// A buffer, and the place of the next byte, which goes on behind the buffer's end.
#[derive(Drop)]
pub struct Writer<'a> {
    out: &'a mut [u8],
    at: usize,
}

impl<'a> Writer<'a> {
    // A writer at the front of a buffer.
    pub fn new(out: &'a mut [u8]) -> Writer<'a>
        ensures buffer { result.out.ghost_name ≡ out.entry.ghost_name }
        ensures out { result.out.now ≡ out.old }
        ensures at { result.at ≡ 0 }
    {
        Writer { out, at: 0 }
    }

    // How many bytes were given to it, whether they had room or not.
    pub fn place(&self) -> usize
        ensures { result ≡ self.now.at }
    {
        self.at
    }

    // One byte. This is the only place where a buffer is written.
    fn byte(&mut self, byte: u8)
        ensures { Put self.old (byte ∷ []) self.new }
    {
        if self.at < self.out.len() {
            self.out[self.at] = byte;
        }
        self.at = self.at.saturating_add(1);
    }

    // A text as it is.
    pub fn text(&mut self, text: &[u8])
        ensures { Put self.old text.now self.new }
    {
        for &byte in text {
            self.byte(byte);
        }
    }

    // A number, as its definition has it: first n / 10, then the last digit.
    pub fn number(&mut self, n: u64)
        ensures { Put self.old (digits n) self.new }
    {
        if n >= 10 {
            self.number(n / 10);
        }
        self.byte(b'0' + (n % 10) as u8);
    }
}
