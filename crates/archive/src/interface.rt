// What every archive offers. Code above knows an archive by this alone.
ghost use Rattle.std.specs.Prelude.{◌≡◌, ℕ, ◌≤◌, List, length, Decides, Option as Maybe};
ghost use Rattle.std.specs.Option.{unwrap_or};
ghost use Rattle.archive.specs.Arguments.{first_three};
ghost use Rattle.archive.specs.Texts.{written};

use super::text::Text;

// The meaning of an archive is three functions: what a code stands for, how many arguments a
// function takes, and what it gives. The four calls answer with that meaning, so a question asked
// twice gets the same answer.
pub trait Archive {
    type Value: Copy;

    ghost leafs: { Self → ℕ → Self.Value };

    ghost counts: { Self → ℕ → Maybe ℕ };

    ghost results: { Self → ℕ → Self.Value → Self.Value → Self.Value → Self.Value };

    // How many arguments a function takes; None where it is unknown.
    fn count(&self, function: u8) -> Option<u8>
        ensures { result ≡ counts self.now function };

    // The value that a code stands for.
    fn leaf(&self, code: u32) -> Self::Value
        ensures { result ≡ leafs self.now code };

    // What a function gives of three values.
    fn apply(&self, function: u8, a: Self::Value, b: Self::Value, c: Self::Value) -> Self::Value
        ensures { result ≡ results self.now function a b c };

    // Whether two values are equal. One of the four calls of the interface, and so kept beside `==`, which may be its body.
    fn same(&self, a: Self::Value, b: Self::Value) -> bool
        ensures { Decides result (a ≡ b) };
}

// An archive whose values can be written down, each with a text of its own.
pub trait Printable: Archive {
    ghost texts: { Self → Self.Value → List ℕ };

    // No two values have one text.
    ghost apart: { (s : Self) (v w : Self.Value) → texts s v ≡ texts s w → v ≡ w };

    // The text of a value.
    fn text(&self, value: Self::Value) -> Text
        ensures says { written result ≡ texts self.now value }
        ensures short { length (written result) ≤ 40 };
}

// A value that a function is applied to: the argument, or the leaf of 0 where it is missing.
pub fn supplied<A: Archive>(archive: &A, argument: Option<A::Value>) -> A::Value
    ensures { result ≡ unwrap_or argument (A.leafs archive.now 0) }
{
    argument.unwrap_or_else(|| archive.leaf(0))
}

// The three values that a function is applied to, of the arguments that there are.
pub fn filled<A: Archive>(archive: &A, arguments: &[A::Value]) -> (A::Value, A::Value, A::Value)
    ensures { result ≡ first_three (A.leafs archive.now 0) arguments.now }
{
    (
        supplied(archive, arguments.get(0).copied()),
        supplied(archive, arguments.get(1).copied()),
        supplied(archive, arguments.get(2).copied()),
    )
}
