// Changes of the table of places: single fields, marks, the exchange of a block, and the freeing of one. That a node stands
// at a place is asked where it is needed and kept in no type: the table changes, and a number of a place outlives the node.
#![tactic(auto)]

mod block;
mod depth;
mod exchanging;
mod laws;
mod setting;
mod taken;
mod takers;

pub use block::free_block;
pub use depth::height;
pub use exchanging::exchange;
pub use laws::{exchange_stands, freeing_stands, marking_stands, takers_stand};
pub use setting::{clear_owed, set_child, set_marks, set_owed, set_parent};
pub use taken::Taken;
pub use takers::{mark_takers, wake_takers};
