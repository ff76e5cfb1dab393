// The tide in a harbour: high from some code on.
ghost use Rattle.archive_other.specs.Harbours.{tide_of, count_of, result_of, tide_text, tides_apart};

use archive::{Archive, Printable, Text};

#[derive(Clone, Copy, PartialEq, Eq)]
pub enum Tide {
    Low,
    High,
}

#[derive(Clone, Copy)]
pub struct Harbour {
    pub flood: u32,
}

// Function 7 gives what two of three values are, function 9 the other tide; any other gives its
// third value.
impl Archive for Harbour {
    type Value = Tide;

    ghost leafs = { λ s n. tide_of s.flood n };

    ghost counts = { λ s f. count_of f };

    ghost results = { λ s f a b c. result_of f a b c };

    fn count(&self, function: u8) -> Option<u8> {
        match function {
            7 => Some(3),
            9 => Some(1),
            _ => None,
        }
    }

    fn leaf(&self, code: u32) -> Tide {
        if code < self.flood {
            Tide::Low
        } else {
            Tide::High
        }
    }

    fn apply(&self, function: u8, a: Tide, b: Tide, c: Tide) -> Tide {
        match (function, a, b) {
            (7, Tide::Low, Tide::Low) => Tide::Low,
            (7, Tide::High, Tide::High) => Tide::High,
            (9, Tide::Low, _) => Tide::High,
            (9, Tide::High, _) => Tide::Low,
            _ => c,
        }
    }

    fn same(&self, a: Tide, b: Tide) -> bool {
        a == b
    }
}

impl Printable for Harbour {
    ghost texts = { λ s v. tide_text v };

    ghost apart = { λ s. tides_apart };

    // Pushed and not printed by Display, since a text may be any bytes, and writing it can't fail.
    fn text(&self, value: Tide) -> Text {
        let mut text = Text::new();
        text.push(match value {
            Tide::Low => b'l',
            Tide::High => b'h',
        });
        text
    }
}
