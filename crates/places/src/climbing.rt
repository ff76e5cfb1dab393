// Climbing from a place to the parents above it.
ghost use Rattle.std.specs.Prelude.{◌≡◌, ◌<◌, Decides};
ghost use Rattle.places.specs.Climbs.{Climbed};
ghost use Rattle.places.specs.Places.{at, parent_at};
ghost use Rattle.places.specs.Shape.{climbs, InTree, Held};

use super::node::{Node, Parent, Place};

// Where climbing ends, or breaks off after 64 places, how many places it passes, and whether it ends: depth 64 is that of a
// way that ends at its 64th place and of one that goes on, and the top alone does not tell them apart.
#[derive(Clone, Copy)]
pub struct Summit {
    pub top: usize,
    pub depth: u16,
    pub ended: bool,
}

// The node at a place; past the end of the table there is none.
pub fn node_at(places: &[Place], p: u16) -> Option<Node>
    ensures { result ≡ at places.now p }
{
    *places.get(usize::from(p))?
}

// Where the node at a place hangs, if there is one and it does.
pub fn parent_at(places: &[Place], p: usize) -> Option<Parent>
    ensures { result ≡ parent_at places.now p }
{
    (*places.get(p)?)?.parent
}

// Climbs at most 64 places. A chain of steps would have to pass on the place, the count and whether there is more above.
pub fn climb(places: &[Place], p: usize) -> Summit
    ensures climbed { Climbed places.now p result }
    ensures fits { p < 65536 → result.top < 65536 }
{
    let mut top = p;
    for above in 0..64 {
        let Some(parent) = parent_at(places, top) else {
            return Summit {
                top,
                depth: above + 1,
                ended: true,
            };
        };
        top = usize::from(parent.place);
    }
    Summit {
        top,
        depth: 64,
        ended: false,
    }
}

// Whether climbing ends within 64 places.
pub fn ends(places: &[Place], p: usize) -> bool
    ensures { result ≡ climbs places.now 64 p }
{
    climb(places, p).ended
}

// Whether a place is used and climbing from it ends at the root.
pub fn is_in_tree(places: &[Place], root: u16, p: u16) -> bool
    ensures { Decides result (InTree places.now root p) }
{
    node_at(places, p).is_some() && climb(places, usize::from(p)).top == usize::from(root)
}

// Whether a place is the root of a held block.
pub fn is_held(places: &[Place], root: u16, p: u16) -> bool
    ensures { Decides result (Held places.now root p) }
{
    node_at(places, p).is_some_and(|node| node.parent.is_none() && p != root)
}
