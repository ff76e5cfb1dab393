// What the house knows of a clip, and the rows of its catalogue.
ghost use Rattle.std.specs.Prelude.{◌≡◌, ℕ, List, Decides};
ghost use Rattle.archive.specs.Rows.{Led, length_of};
ghost use Rattle.archive.specs.Texts.{written};
ghost use Rattle.archive.specs.declared.clip.Row.{Row as RowOf};
ghost use Rattle.archive.specs.declared.house.House.{House as HouseOf};

use super::house::House;
use super::text::Text;

// A clip of the catalogue, and how many frames it has.
#[derive(Clone, Copy)]
pub struct Row<C> {
    pub clip: C,
    pub frames: u32,
}

// A kind of clip: the name that a setting has for one.
pub trait Clip: Copy + Eq {
    // What a code stands for, over the rows of a catalogue.
    ghost leafs: { List (RowOf Self) → ℕ → HouseOf Self };

    ghost texts: { Self → List ℕ };

    // No two clips have one text.
    ghost apart: { (a b : Self) → texts a ≡ texts b → a ≡ b };

    // The text of a clip does not begin as that of another value.
    ghost led: { (a : Self) → Led (texts a) };

    // The value that a code stands for.
    fn leaf(rows: &[Row<Self>], code: u32) -> House<Self>
        ensures { result ≡ leafs rows.now code };

    // The text of a clip.
    fn text(self) -> Text
        ensures { written result ≡ texts self };

    // Clips are equal exactly where they are one.
    ghost exact: { (a b : Self) → Decides (Self.PartialEq.eq a b) (a ≡ b) };
}

// How many frames a clip has, by the first row that has it.
pub fn length<C: Clip>(rows: &[Row<C>], clip: C) -> Option<u32>
    ensures { result ≡ length_of C.eq rows.now clip }
{
    rows.iter()
        .find(|row| row.clip == clip)
        .map(|row| row.frames)
}
