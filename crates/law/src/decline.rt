// Why calls are declined, and the numbers of the declines.
ghost use Rattle.std.specs.Prelude.{◌≡◌};
ghost use Rattle.law.specs.Declines.{decline_number};

// Why a call is declined.
#[derive(Clone, Copy, Debug, PartialEq, Eq)]
pub enum Decline {
    // The archive lacks a function with that count of arguments.
    Function,
    // There are no places, or too many, or the value table is short.
    Tables,
    // The block has no piece, or too many.
    Length,
    // The block has an unknown rule or a wrong symbol, ends early, or has pieces left over.
    Form,
    // More than 64 nodes would stand on a path.
    Depth,
    // There are too few free places.
    Full,
    // The table of places is not in shape.
    Shape,
    // Fewer than 64 cells were handed in.
    Cells,
    // The ticket has another tag, or its root is not held.
    Ticket,
    // The place is not in the tree.
    Target,
    // The held block's root has another symbol than the place.
    Symbol,
    // The tour does not meet an owed instance of the tree.
    Unmet,
    // A value was asked for while the tree is not settled.
    Unsettled,
    // There is no such place in the tree, or no such attribute.
    Absent,
}

// By a match, as the numbers of refusals are, which can have no discriminants: there is one way of numbering.
impl From<Decline> for u8 {
    ghost from_gives = { λ decline n. n ≡ decline_number decline };

    fn from(decline: Decline) -> u8 {
        match decline {
            Decline::Function => 9,
            Decline::Tables => 10,
            Decline::Length => 11,
            Decline::Form => 12,
            Decline::Depth => 13,
            Decline::Full => 14,
            Decline::Shape => 15,
            Decline::Cells => 16,
            Decline::Ticket => 17,
            Decline::Target => 18,
            Decline::Symbol => 19,
            Decline::Unmet => 20,
            Decline::Unsettled => 21,
            Decline::Absent => 22,
        }
    }
}
