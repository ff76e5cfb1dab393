// Blocks: trees as rows of pieces, judged, and written into free places.
#![tactic(auto)]

mod blanking;
mod clearing;
mod finding;
mod judging;
mod laws;
mod piece;
mod planting;

pub use blanking::blank_values;
pub use clearing::free_all;
pub use judging::judge_block;
pub use laws::{empty_tables_stand, judgement_stands, taken_places_stand, written_blocks_stand};
pub use piece::{BlockFault, Piece};
pub use planting::write_block;
