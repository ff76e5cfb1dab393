// What an equation's argument may come from: anything of an occurrence, or one attribute of it.
#[derive(Clone, Copy)]
pub enum Taken {
    Occurrence(u16),
    Attribute(u16, u16),
}
