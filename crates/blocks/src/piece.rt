// What a block is made of, and what can be wrong with one.

// A node to be: its rule and its datum. A block has the pieces of one tree, each before those below it, and the
// children from left to right.
#[derive(Clone, Copy, Debug, PartialEq, Eq)]
pub struct Piece {
    pub rule: u32,
    pub datum: u32,
}

// Too few pieces or too many; not the pieces of one tree of the right symbol; a tree that is too deep.
#[derive(Clone, Copy, Debug, PartialEq, Eq)]
pub enum BlockFault {
    Length,
    Form,
    Depth,
}
