// The owed attributes of a node, in one number of 16 bits. A mark past the sixteenth cannot be set, so whoever sets one asks
// for an attribute below 16.
ghost use Rattle.std.specs.Prelude.{◌≡◌, ℕ, ◌<◌, true, false, MatchOption};
ghost use Rattle.places.specs.Marks.{owes, First, Turned, owed_below};

// Whether an attribute is owed; past the sixteenth none is.
pub fn is_owed(marks: u16, attribute: u16) -> bool
    ensures { result ≡ owes marks attribute }
{
    attribute < 16 && (marks >> attribute) & 1 == 1
}

// The marks with an attribute owed. One function for this and `without_owed`, by a flag, would only choose between the two
// bodies.
pub fn with_owed(marks: u16, attribute: u16) -> u16
    requires { attribute < 16 }
    ensures { Turned marks attribute true result }
{
    marks | (1 << attribute)
}

// The marks with an attribute not owed; past the sixteenth none is.
pub fn without_owed(marks: u16, attribute: u16) -> u16
    ensures { Turned marks attribute false result }
{
    if attribute < 16 {
        marks & !(1 << attribute)
    } else {
        marks
    }
}

// The owed attribute of least number.
pub fn first_owed(marks: u16) -> Option<u16>
    ensures { MatchOption result ((k : ℕ) → owes marks k ≡ false) (λ a. First marks a) }
{
    (marks != 0).then(|| marks.trailing_zeros() as u16)
}

// How many attributes are owed.
pub fn count_owed(marks: u16) -> u32
    ensures { result ≡ owed_below marks 16 }
{
    marks.count_ones()
}
