// Clips that go by an identifier.
ghost use Rattle.archive.specs.Settings.{leaf_by_id, identifier_text};
ghost use Rattle.archive.specs.Apart.{identifier_exact, identifier_apart, identifier_led};

use super::clip::{Clip, Row};
use super::house::House;
use super::text::Text;

#[derive(Clone, Copy, PartialEq, Eq)]
pub struct Identifier(pub u32);

// The leaf of 0 is nothing, that of any other code the clip of that identifier.
impl Clip for Identifier {
    ghost leafs = { λ rows n. leaf_by_id n };

    ghost texts = { identifier_text };

    ghost apart = { identifier_apart };

    ghost led = { identifier_led };

    fn leaf(_rows: &[Row<Identifier>], code: u32) -> House<Identifier> {
        match code {
            0 => House::Nothing,
            _ => House::Clip(Identifier(code)),
        }
    }

    // Pushed and not printed by Display, since a text may be any bytes, and writing it can't fail.
    fn text(self) -> Text {
        Text::lettered(b'c', self.0)
    }

    ghost exact = { identifier_exact };
}
