// What places hold.
ghost use Rattle.std.specs.Prelude.{◌≡◌, ℕ, ◌≤◌, slice_index};
ghost use Rattle.tour.specs.Trees.{at_of};
ghost use Rattle.places.specs.Places.{firsts};

// Where a node hangs: the place of its parent, and which of the parent's children it is, counted from 1.
#[derive(Clone, Copy, Debug, PartialEq, Eq)]
pub struct Parent {
    pub place: u16,
    pub position: u16,
}

// A node of the tree or of a held block. Of its children as many count as its rule has right symbols. The marks are its
// owed attributes, attribute 0 in the lowest digit. The children lie in an array, as a node is copied and the library's
// vector in place cannot be.
#[derive(Clone, Copy, Debug, PartialEq, Eq)]
pub struct Node {
    pub rule: u16,
    pub datum: u32,
    pub parent: Option<Parent>,
    pub children: [u16; 4],
    pub marks: u16,
}

// A free place holds nothing. A table is a slice of places that is handed in, as the values are, and a node names others by
// their numbers: tables are lent, and nothing here may ask for memory.
pub type Place = Option<Node>;

impl Node {
    // The place of child number k, counted from 0; 0 past the four.
    pub fn child(&self, k: usize) -> u16
        ensures { result ≡ slice_index self.now.children k }
    {
        self.children.get(k).copied().unwrap_or(0)
    }

    // Where an occurrence of the rule stands: occurrence 0 at the node's own place, the others at its children.
    pub fn occurrence_place(&self, place: u16, occurrence: u16) -> u16
        ensures place { result ≡ at_of place self.now.children occurrence }
        ensures among { (count : ℕ) → occurrence ≤ count → result ≡ at_of place (firsts count self.now.children) occurrence }
    {
        match occurrence {
            0 => place,
            _ => self.child(usize::from(occurrence) - 1),
        }
    }
}
