// At most 40 bytes, in place. The library's ArrayString holds UTF-8 alone, and its ArrayVec cannot be copied.
ghost use Rattle.std.specs.Prelude.{◌≡◌, ◌≤◌, length};

mod write;

#[derive(Clone, Copy, Debug)]
pub struct Text {
    bytes: [u8; 40],
    len: usize,
    ghost within: { len ≤ 40 },
    ghost size: { length bytes ≡ 40 },
}
