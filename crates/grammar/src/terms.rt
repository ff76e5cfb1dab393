// The terms of a grammar that are plain values.
ghost use Rattle.std.specs.Prelude.{◌≡◌};
ghost use Rattle.grammar.specs.declared.terms.Instruction.TheVariants.{Return};

// Inherited attributes come to a node from above, synthesized ones from below.
#[derive(Clone, Copy, Debug, Default, PartialEq, Eq)]
pub enum Flow {
    #[default]
    Inherited,
    Synthesized,
}

// An attribute of a symbol: it is known from that visit on.
#[derive(Clone, Copy, Debug, Default, PartialEq, Eq)]
pub struct Attribute {
    pub flow: Flow,
    pub visit: u16,
}

// An argument of an equation: the node's own datum, or an attribute of an occurrence.
#[derive(Clone, Copy, Debug, Default, PartialEq, Eq)]
pub enum Argument {
    #[default]
    Datum,
    Of(u16, u16),
}

// A step of a plan: evaluate an attribute of an occurrence, go through a visit of a right occurrence, or return from
// a visit.
#[derive(Clone, Copy, Debug, PartialEq, Eq)]
pub enum Instruction {
    Evaluate(u16, u16),
    Visit(u16, u16),
    Return(u16),
}

// What fills the room that a list of instructions does not use yet.
impl Default for Instruction {
    ghost is_default = { λ i. i ≡ Return 0 };

    fn default() -> Instruction {
        Instruction::Return(0)
    }
}
