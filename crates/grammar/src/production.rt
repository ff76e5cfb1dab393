// The symbols at the occurrences of one rule.
ghost use Rattle.std.specs.Prelude.{◌≡◌, ℕ, length, is_some};
ghost use Rattle.std.specs.Option.{option_map};
ghost use Rattle.std.specs.List.{slice_get};
ghost use Rattle.grammar.specs.Rows.{symbol_of};
ghost use Rattle.grammar.specs.Scopes.{scope_of, symbol_at, visits_at, attributes_at, attribute_at, flow_at, flows, defines, takes, argument_there, argument_taken, visit_there, instruction_there};

use super::rows::SymbolRow;
use super::terms::{Argument, Attribute, Flow, Instruction};

// Occurrence 0 is the left symbol, 1 to 4 are the right ones. An attribute is named by its occurrence and its number
// there, two plain numbers as in an argument, an instruction and an equation.
#[derive(Clone, Copy)]
pub struct Production<'a> {
    pub symbols: &'a [SymbolRow],
    pub left: u16,
    pub right: &'a [u16],
}

impl<'a> Production<'a> {
    // The number of the symbol at an occurrence.
    fn at(&self, occurrence: usize) -> Option<u16>
        ensures { result ≡ slice_get (scope_of self.now).occurrences occurrence }
    {
        match occurrence {
            0 => Some(self.left),
            _ => self.right.get(occurrence - 1).copied(),
        }
    }

    // The symbol at an occurrence.
    pub fn symbol(&self, occurrence: usize) -> Option<&'a SymbolRow>
        ensures { option_map (λ x. symbol_of x.now) result ≡ symbol_at (scope_of self.now) occurrence }
    {
        let at = self.at(occurrence)?;
        self.symbols.get(usize::from(at))
    }

    // How many visits an occurrence has.
    pub fn visits(&self, occurrence: usize) -> u16
        ensures { result ≡ visits_at (scope_of self.now) occurrence }
    {
        self.symbol(occurrence).map_or(0, |symbol| symbol.visits)
    }

    // The attributes of an occurrence; none where there is no such occurrence.
    pub fn attributes(&self, occurrence: usize) -> &'a [Attribute]
        ensures each { (a : ℕ) → slice_get result.now a ≡ attribute_at (scope_of self.now) occurrence a }
        ensures count { length result.now ≡ attributes_at (scope_of self.now) occurrence }
    {
        self.symbol(occurrence)
            .map_or(&[], |symbol| symbol.attributes.as_slice())
    }

    pub fn attribute(&self, occurrence: usize, attribute: usize) -> Option<Attribute>
        ensures { result ≡ attribute_at (scope_of self.now) occurrence attribute }
    {
        self.attributes(occurrence).get(attribute).copied()
    }

    // Whether an attribute is there that flows so at the left occurrence, and the other way at a right one.
    fn flows(&self, occurrence: usize, attribute: usize, left: Flow) -> bool
        ensures { result ≡ flows (flow_at left occurrence) (attribute_at (scope_of self.now) occurrence attribute) }
    {
        self.attribute(occurrence, attribute)
            .is_some_and(|x| (x.flow == left) == (occurrence == 0))
    }

    // Whether the rule has to have an equation for that attribute.
    pub fn defines(&self, occurrence: usize, attribute: usize) -> bool
        ensures { result ≡ defines (scope_of self.now) occurrence attribute }
    {
        self.flows(occurrence, attribute, Flow::Synthesized)
    }

    // Whether an equation of the rule may take that attribute.
    pub fn takes(&self, occurrence: usize, attribute: usize) -> bool
        ensures { result ≡ takes (scope_of self.now) occurrence attribute }
    {
        self.flows(occurrence, attribute, Flow::Inherited)
    }

    fn is_there(&self, occurrence: u16, attribute: u16) -> bool
        ensures { result ≡ is_some (attribute_at (scope_of self.now) occurrence attribute) }
    {
        self.attribute(usize::from(occurrence), usize::from(attribute))
            .is_some()
    }

    // Whether an argument names an attribute that is there. This and the next match the two cases of an
    // argument: one function for both would take the test of a named attribute, and save no line.
    pub fn argument_there(&self, argument: Argument) -> bool
        ensures { result ≡ argument_there (scope_of self.now) argument }
    {
        match argument {
            Argument::Datum => true,
            Argument::Of(occurrence, attribute) => self.is_there(occurrence, attribute),
        }
    }

    // Whether an equation of the rule may have that argument.
    pub fn argument_taken(&self, argument: Argument) -> bool
        ensures { result ≡ argument_taken (scope_of self.now) argument }
    {
        match argument {
            Argument::Datum => true,
            Argument::Of(occurrence, attribute) => self.takes(
                usize::from(occurrence),
                usize::from(attribute),
            ),
        }
    }

    fn visit_there(&self, occurrence: usize, visit: u16) -> bool
        ensures { result ≡ visit_there (scope_of self.now) occurrence visit }
    {
        (1..=self.visits(occurrence)).contains(&visit)
    }

    // Whether an instruction names an attribute or a visit that is there.
    pub fn instruction_there(&self, instruction: Instruction) -> bool
        ensures { result ≡ instruction_there (scope_of self.now) instruction }
    {
        match instruction {
            Instruction::Evaluate(occurrence, attribute) => self.is_there(occurrence, attribute),
            Instruction::Visit(occurrence, visit) => self.visit_there(
                usize::from(occurrence),
                visit,
            ),
            Instruction::Return(visit) => self.visit_there(0, visit),
        }
    }
}
