// What stands for a held block: the tag of its opening, and the place of its root. A ticket is spent by dropping or
// discarding the block and in no other way: it can be neither copied nor let go.
pub struct Ticket {
    tag: u32,
    root: u16,
}
