// One field of the node at a place, written; a free place stays free. The setters of a child, a parent and marks differ in
// the field alone, and each is one assignment of what `map` gives.
ghost use Rattle.std.specs.Prelude.{◌≡◌, ◌<◌, length};
ghost use Rattle.exchange.specs.Setting.{changed_at, with_child, with_parent, with_marks};
ghost use Rattle.exchange.specs.Waking.{Woke, Slept, is_at};

use places::{Node, Parent, Place, node_at, with_owed, without_owed};

// A node with another child; one past the four is none.
fn with_child(node: Node, k: u16, child: u16) -> Node
    ensures { result ≡ with_child k child node }
{
    let mut children = node.children;
    if k < 4 {
        children[usize::from(k)] = child;
    }
    Node { children, ..node }
}

// Makes that place child number k, counted from 0.
pub fn set_child(places: &mut [Place], p: u16, k: u16, child: u16)
    ensures { places.new ≡ changed_at (with_child k child) places.old p }
{
    let at = usize::from(p);
    if at < places.len() {
        places[at] = places[at].map(|node| with_child(node, k, child));
    }
}

pub fn set_parent(places: &mut [Place], p: u16, parent: Option<Parent>)
    ensures { places.new ≡ changed_at (with_parent parent) places.old p }
{
    let at = usize::from(p);
    if at < places.len() {
        places[at] = places[at].map(|node| Node { parent, ..node });
    }
}

pub fn set_marks(places: &mut [Place], p: u16, marks: u16)
    ensures { places.new ≡ changed_at (with_marks marks) places.old p }
{
    let at = usize::from(p);
    if at < places.len() {
        places[at] = places[at].map(|node| Node { marks, ..node });
    }
}

// Makes attribute a of the node at p owed. With `clear_owed` in one function, which is given a change of marks, it would
// have to ask what that change promises.
pub fn set_owed(places: &mut [Place], p: u16, a: u16)
    requires { a < 16 }
    ensures { Woke places.old places.new (is_at p a) }
{
    if let Some(node) = node_at(places, p) {
        set_marks(places, p, with_owed(node.marks, a));
    }
}

// Makes attribute a of the node at p not owed.
pub fn clear_owed(places: &mut [Place], p: u16, a: u16)
    ensures { Slept places.old places.new (is_at p a) }
{
    if let Some(node) = node_at(places, p) {
        set_marks(places, p, without_owed(node.marks, a));
    }
}
