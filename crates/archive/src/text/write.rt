ghost use Rattle.std.specs.Prelude.{◌≡◌, [], ◌∷◌, ◌++◌, take};
ghost use Rattle.archive.specs.Texts.{written, numeral};

use super::Text;
use itoa::Buffer;

impl Text {
    pub fn new() -> Text
        ensures { written result ≡ [] }
    {
        Text {
            bytes: [0; 40],
            len: 0,
        }
    }

    // One byte more, if there is room for it.
    pub fn push(&mut self, byte: u8)
        ensures { written self.new ≡ take 40 (written self.old ++ byte ∷ []) }
    {
        if self.len < self.bytes.len() {
            self.bytes[self.len] = byte;
            self.len += 1;
        }
    }

    // The decimal digits of a number, as far as there is room for them.
    // Pushed and not printed by Display, since a text may be any bytes, and writing it can't fail.
    pub fn push_number(&mut self, n: u32)
        ensures { written self.new ≡ take 40 (written self.old ++ numeral n) }
    {
        let mut buffer = Buffer::new();
        for digit in buffer.format(n).as_bytes() {
            self.push(*digit);
        }
    }

    // A letter and a number behind it.
    pub fn lettered(letter: u8, n: u32) -> Text
        ensures { written result ≡ letter ∷ numeral n }
    {
        let mut text = Text::new();
        text.push(letter);
        text.push_number(n);
        text
    }

    pub fn as_slice(&self) -> &[u8]
        ensures { result.now ≡ written self.now }
    {
        &self.bytes[..self.len]
    }
}
