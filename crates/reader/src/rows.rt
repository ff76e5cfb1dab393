// Rows that name parts of other tables. They own no lists, since reading must not fail for want of memory: what they
// name stands in tables whose room was reserved.
ghost use Rattle.std.specs.Prelude.{◌≡◌, ◌-◌, ◌≤◌, length};
ghost use Rattle.std.specs.List.{between};

use lines::RuleSymbols;

// From `start` up to `end`, which is not in it.
#[derive(Clone, Copy)]
pub struct Span {
    pub start: usize,
    pub end: usize,
    ghost ordered: { start ≤ end },
}

impl Span {
    // How many places it has.
    pub fn size(self) -> usize
        ensures { result ≡ self.end - self.start }
    {
        let Span { start, end } = self;
        end - start
    }

    // Its part of a table.
    pub fn part<T>(self, all: &[T]) -> &[T]
        requires { self.end ≤ length all.now }
        ensures { result.now ≡ between self.start self.end all.now }
    {
        &all[self.start..self.end]
    }
}

#[derive(Drop)]
pub struct RuleRow {
    pub rule: RuleSymbols,
    pub equations: Span,
    pub plan: Span,
}

// A rule whose plan has not come yet. Its equations are those from `start` on.
#[derive(Drop)]
pub struct Opened {
    pub rule: RuleSymbols,
    pub start: usize,
}
