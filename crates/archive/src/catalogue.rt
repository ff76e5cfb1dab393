// A catalogue is an archive, whatever its clips go by.
ghost use Rattle.std.specs.Prelude.{◌≡◌};
ghost use Rattle.archive.specs.Apart.{values_apart};
ghost use Rattle.archive.specs.Functions.{count_of, result_of, house_text};
ghost use Rattle.archive.specs.Rows.{length_of};

use super::by_id::Identifier;
use super::by_path::Path;
use super::clip::{Clip, Row};
use super::house::{Function, House};
use super::interface::{Archive, Printable};
use super::text::Text;

// The rows are any rows, looked through from the front: a map would ask for memory of its own, and making a catalogue could
// fail.
#[derive(Drop)]
pub struct Catalogue<C> {
    rows: Vec<Row<C>>,
}

// The two settings.
pub type ById = Catalogue<Identifier>;

pub type ByPath = Catalogue<Path>;

impl<C: Clip> Catalogue<C> {
    // The archive over these rows. Of rows that have one clip the first counts.
    pub fn new(rows: Vec<Row<C>>) -> Catalogue<C>
        ensures { result.rows.items ≡ rows.items }
    {
        Catalogue { rows }
    }
}

impl<C: Clip> Archive for Catalogue<C> {
    type Value = House<C>;

    ghost leafs = { λ s n. C.Clip.leafs s.rows.items n };

    ghost counts = { λ s f. count_of f };

    ghost results = { λ s f a b c. result_of (length_of C.eq s.rows.items) f a b };

    fn count(&self, function: u8) -> Option<u8> {
        Function::count(function)
    }

    fn leaf(&self, code: u32) -> House<C> {
        C::leaf(&self.rows, code)
    }

    fn apply(&self, function: u8, a: House<C>, b: House<C>, _c: House<C>) -> House<C> {
        Function::try_from(function).map_or(House::Nothing, |f| f.of(&self.rows, a, b))
    }

    fn same(&self, a: House<C>, b: House<C>) -> bool {
        a == b
    }
}

impl<C: Clip> Printable for Catalogue<C> {
    ghost texts = { λ s v. house_text C.Clip.texts v };

    ghost apart = { λ s. values_apart C.Clip.texts C.Clip.apart C.Clip.led };

    fn text(&self, value: House<C>) -> Text {
        value.text()
    }
}
