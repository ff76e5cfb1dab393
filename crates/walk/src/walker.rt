// Where a walk stands.
use places::{Frame, Pushdown};

// Listing what its plan says; looking for the segment of a visit, so many returns ahead; back at the visit that it went
// through; or at the end.
#[derive(Clone, Copy, Debug, PartialEq, Eq)]
pub enum Mode {
    InPlan,
    Entering(u16),
    Returning,
    Done,
}

// An instance that a walk met: an attribute of an occurrence of the rule at a place, and the place of that occurrence.
#[derive(Clone, Copy, Debug, PartialEq, Eq)]
pub struct Met {
    pub rule_place: u16,
    pub occurrence: u16,
    pub attribute: u16,
    pub place: u16,
}

// A walk stands at an instruction of the plan at a place. The frames are the visits that it is in.
#[derive(Drop)]
pub struct Walk<'p, 'c> {
    pub mode: Mode,
    pub place: u16,
    pub next: u16,
    pub frames: &'p mut Pushdown<'c, Frame>,
}
