// The rows of a sheet's tables.
ghost use Rattle.std.specs.Prelude.{◌≡◌};
ghost use Rattle.grammar.specs.Rows.{equation_of, targets};

use super::terms::{Argument, Attribute};
use arrayvec::ArrayVec;

#[derive(Drop)]
pub struct SymbolRow {
    pub visits: u16,
    pub attributes: ArrayVec<Attribute, 16>,
}

// An equation, with its function as a number of that type.
#[derive(Drop)]
pub struct Equation<F> {
    pub occurrence: u16,
    pub attribute: u16,
    pub function: F,
    pub arguments: ArrayVec<Argument, 3>,
}

pub type EquationRow = Equation<u8>;

impl Equation<u8> {
    // Whether it is for that attribute of that occurrence, which are places in tables.
    pub fn targets(&self, occurrence: usize, attribute: usize) -> bool
        ensures { result ≡ targets (equation_of self.now) occurrence attribute }
    {
        usize::from(self.occurrence) == occurrence && usize::from(self.attribute) == attribute
    }
}
