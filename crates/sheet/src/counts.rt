// How much a sheet holds.
ghost use Rattle.std.specs.Prelude.{Some};
ghost use Rattle.sheet.specs.CountsText.{counts_text};

use std::fmt;

#[derive(Clone, Copy, Debug, PartialEq, Eq)]
pub struct Counts {
    pub symbols: usize,
    pub rules: usize,
    pub sets: usize,
    pub instructions: usize,
}

impl fmt::Display for Counts {
    ghost output = { λ counts. Some (counts_text counts) };

    fn fmt<W: fmt::Write>(&self, f: &mut fmt::Formatter<W>) -> fmt::Result {
        let Counts {
            symbols,
            rules,
            sets,
            instructions,
        } = *self;
        write!(
            f,
            "symbols={symbols} rules={rules} sets={sets} instructions={instructions}"
        )
    }
}
