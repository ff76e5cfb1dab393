use places::Place;

// The tables of an opening, besides its values: its tag, the place of the tree's root, and the places. Anyone may put
// together such tables, so every call looks at their shape first.
#[derive(Drop)]
pub struct Rundown {
    pub tag: u32,
    pub root: u16,
    pub places: Vec<Place>,
}
