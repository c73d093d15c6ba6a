// Texts that are put into a lent buffer byte by byte, as much of them as there is room for.
#![tactic(auto)]

ghost use Rattle.std.specs.Prelude.{[], ◌∷◌};
ghost use Rattle.buffer.specs.Writer.{Puts};

/// A lent buffer and the place in it that is next. What finds no place is dropped.
#[derive(Drop)]
pub struct Writer<'a> {
    pub out: &'a mut [u8],
    pub next: usize,
}

impl Writer<'_> {
    /// Puts a byte at the next place, where there is one.
    pub fn put_byte(&mut self, byte: u8)
        ensures { Puts (byte ∷ []) self.old self.new }
    {
        if self.next < self.out.len() {
            self.out[self.next] = byte;
            self.next += 1;
        }
    }

    /// Puts the bytes of a text, one after another.
    pub fn put_text(&mut self, text: &[u8])
        ensures { Puts text.now self.old self.new }
    {
        for &byte in text {
            self.put_byte(byte);
        }
    }
}
