// One walk along the tour of a tree, and the evaluation of what it meets.
#![tactic(auto)]

mod along;
mod evaluation;
mod laws;
mod look;
mod moves;
mod walker;

pub use along::is_due;
pub use evaluation::{evaluate, value_at};
pub use laws::{marks_are_passed, moves_stand, one_walk_finds};
pub use look::instruction_at;
pub use walker::{Met, Mode, Walk};
