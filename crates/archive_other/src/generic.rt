// Code over any archive.
ghost use Rattle.std.specs.Prelude.{◌≡◌, true, Decides};
ghost use Rattle.archive.specs.Arguments.{first_three};
ghost use Rattle.archive_other.specs.Harbours.{applied};

use archive::{Archive, Printable, filled};

// What a function gives of some arguments.
pub fn evaluated<A: Archive>(archive: &A, function: u8, arguments: &[A::Value]) -> A::Value
    ensures { result ≡ applied (A.Archive.results archive.now function) (first_three (A.Archive.leafs archive.now 0) arguments.now) }
{
    let (a, b, c) = filled(archive, arguments);
    archive.apply(function, a, b, c)
}

// Whether an archive answers a question that is asked twice with one value: it always does.
pub fn steady<A: Archive>(archive: &A, code: u32, function: u8) -> bool
    ensures { result ≡ true }
{
    let before = archive.leaf(code);
    let first = archive.apply(function, before, before, before);
    let after = archive.leaf(code);
    let second = archive.apply(function, after, after, after);
    archive.same(before, after) && archive.same(first, second)
}

// Whether two values are one, told by their texts alone.
pub fn told_by_text<P: Printable>(archive: &P, v: P::Value, w: P::Value) -> bool
    ensures { Decides result (v ≡ w) }
{
    archive.text(v).as_slice() == archive.text(w).as_slice()
}
