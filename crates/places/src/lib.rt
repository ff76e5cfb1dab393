// The table of places: nodes with their marks, climbing to parents, whether a table is in shape, what is free and owed
// in it, and the pushdown list over cells that a caller lends.
#![tactic(auto)]

mod climbing;
mod kinds;
mod laws;
mod marks;
mod node;
mod pushdown;
mod shape;
mod totals;

pub use climbing::{Summit, climb, ends, is_held, is_in_tree, node_at, parent_at};
pub use kinds::{Kind, arity_of, kind_of, left_of};
pub use laws::shape_shows_trees;
pub use marks::{count_owed, first_owed, is_owed, with_owed, without_owed};
pub use node::{Node, Parent, Place};
pub use pushdown::{Frame, Pushdown};
pub use shape::{is_shaped, places_are_sound};
pub use totals::{first_owed_in_tree, free_places, owed_total};
