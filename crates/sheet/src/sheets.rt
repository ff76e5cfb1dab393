// A sheet is made empty, and read from a text.
ghost use Rattle.std.specs.Prelude.{◌≡◌, IfOk};
ghost use Rattle.reader.specs.Judgement.{judge};
ghost use Rattle.sheet.specs.Answers.{grammar_of, Judged, Means};
ghost use Rattle.sheet.specs.Kept.{empty};

use super::kept::Sheet;
use reader::{Fault, Tables};
use std::alloc::{AllocError, Global};

impl Sheet {
    // An empty sheet, with room for the largest one.
    pub fn new(heap: Global) -> Result<Sheet, AllocError>
        ensures { IfOk result (λ s. grammar_of s ≡ empty) }
    {
        let tables = Tables::new(heap)?;
        Ok(Sheet { tables })
    }

    // Reads a text in place of what the sheet held. A fault leaves the sheet empty.
    pub fn read(&mut self, text: &[u8]) -> Result<(), Fault>
        ensures judged { Judged result (judge text.now) (grammar_of self.new) }
        ensures means { Means result text.now (grammar_of self.new) }
    {
        self.tables.read(text)
    }
}
