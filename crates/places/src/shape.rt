// Whether a table of places is in shape.
ghost use Rattle.std.specs.Prelude.{ℕ, ◌^◌, ◌<◌, length, Some, Decides, slice_index};
ghost use Rattle.sheet.specs.Answers.{grammar_of};
ghost use Rattle.places.specs.Places.{at};
ghost use Rattle.places.specs.declared.node.Node.{Node};
ghost use Rattle.places.specs.Shape.{ChildThere, ParentThere, HangsBelow, RootThere, SoundNode, SoundPlace, SoundPlaces, InShape};

use super::climbing::{ends, node_at};
use super::kinds::{arity_of, kind_of, left_of};
use super::node::{Node, Parent, Place};
use sheet::Sheet;

// Sheet and places are two parameters here and above. A struct of both would have to be two, one that looks at the table
// and one that changes it, and each clause would read `self.now.sheet.now` for `sheet.now`.

// Whether a child hangs below that place as child number k, counted from 0, and has that symbol.
fn child_is_there(sheet: &Sheet, p: usize, k: usize, symbol: u16, child: Place) -> bool
    ensures { Decides result (ChildThere (grammar_of sheet.now) p k symbol child) }
{
    child.is_some_and(|node| {
        node.parent.is_some_and(|parent| {
            usize::from(parent.place) == p && usize::from(parent.position).checked_sub(1) == Some(k)
        }) && left_of(sheet, node.rule) == symbol
    })
}

// Whether a node has that place as its child at that position, counted from 1.
fn points_at(sheet: &Sheet, p: usize, position: u16, parent: Place) -> bool
    ensures { Decides result (ParentThere (grammar_of sheet.now) p position parent) }
{
    let position = usize::from(position);
    parent.is_some_and(|node| {
        1 <= position
            && position <= arity_of(sheet, node.rule)
            && usize::from(node.child(position - 1)) == p
    })
}

// Whether the parent, if there is one, has that place as its child.
fn parent_is_there(sheet: &Sheet, places: &[Place], p: usize, parent: Option<Parent>) -> bool
    ensures { Decides result (HangsBelow (grammar_of sheet.now) places.now p parent) }
{
    parent.is_none_or(|parent| points_at(sheet, p, parent.position, node_at(places, parent.place)))
}

// Whether marks name the first so many attributes only.
fn marks_fit(attributes: usize, marks: u16) -> bool
    ensures { Decides result (marks < 2 ^ attributes) }
{
    attributes >= 16 || marks >> attributes == 0
}

// Whether the root has the start symbol and no parent.
fn root_is_there(sheet: &Sheet, root: Place) -> bool
    ensures { Decides result (RootThere (grammar_of sheet.now) root) }
{
    root.is_some_and(|node| node.parent.is_none() && left_of(sheet, node.rule) == 0)
}

// Whether each child that the rule asks for is there, with the symbol that the rule has at its position.
fn children_are_there(sheet: &Sheet, places: &[Place], p: usize, node: Node, right: &[u16]) -> bool
    ensures { Decides result ((k : ℕ) → k < length right.now → ChildThere (grammar_of sheet.now) p k (slice_index right.now k) (at places.now (slice_index node.children k))) }
{
    right.iter().enumerate().all(|(k, symbol)| child_is_there(
        sheet,
        p,
        k,
        *symbol,
        node_at(places, node.child(k)),
    ))
}

// Whether what has to hold of the node at a used place does.
fn node_is_sound(sheet: &Sheet, places: &[Place], p: usize, node: Node) -> bool
    ensures { Decides result (SoundNode (grammar_of sheet.now) places.now p node) }
{
    kind_of(sheet, usize::from(node.rule)).is_some_and(|kind| {
        children_are_there(sheet, places, p, node, kind.right)
            && parent_is_there(sheet, places, p, node.parent)
            && ends(places, p)
            && marks_fit(kind.attributes, node.marks)
    })
}

// A free place is sound, and a used one where its node is.
fn place_is_sound(sheet: &Sheet, places: &[Place], p: usize, place: Place) -> bool
    ensures { Decides result (SoundPlace (grammar_of sheet.now) places.now p place) }
{
    place.is_none_or(|node| node_is_sound(sheet, places, p, node))
}

// Whether what has to hold of all places does, whichever of them is the root.
pub fn places_are_sound(sheet: &Sheet, places: &[Place]) -> bool
    ensures { Decides result (SoundPlaces (grammar_of sheet.now) places.now) }
{
    (1..=4096).contains(&places.len())
        && places
            .iter()
            .enumerate()
            .all(|(p, place)| place_is_sound(sheet, places, p, *place))
}

// Whether the table is in shape, with its tree at that root.
pub fn is_shaped(sheet: &Sheet, places: &[Place], root: u16) -> bool
    ensures { Decides result (InShape (grammar_of sheet.now) places.now root) }
{
    root_is_there(sheet, node_at(places, root)) && places_are_sound(sheet, places)
}
