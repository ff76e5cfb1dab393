// Clips that go by a path.
ghost use Rattle.archive.specs.Settings.{leaf_by_path, path_text};
ghost use Rattle.archive.specs.Apart.{path_exact, path_apart, path_led};

use super::clip::{Clip, Row};
use super::house::House;
use super::text::Text;

#[derive(Clone, Copy, PartialEq, Eq)]
pub struct Path {
    pub volume: u32,
    pub folder: u32,
    pub name: u32,
}

// The leaf of n is the path in row n, counted from 1; nothing where there is no such row.
impl Clip for Path {
    ghost leafs = { leaf_by_path };

    ghost texts = { path_text };

    ghost apart = { path_apart };

    ghost led = { path_led };

    fn leaf(rows: &[Row<Path>], code: u32) -> House<Path> {
        code.checked_sub(1)
            .and_then(|at| rows.get(at as usize))
            .map_or(House::Nothing, |row| House::Clip(row.clip))
    }

    // Pushed and not printed by Display, since a text may be any bytes, and writing it can't fail.
    fn text(self) -> Text {
        let mut text = Text::lettered(b'p', self.volume);
        text.push(b'/');
        text.push_number(self.folder);
        text.push(b'/');
        text.push_number(self.name);
        text
    }

    ghost exact = { path_exact };
}
