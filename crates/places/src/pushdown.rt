// One list for every kind of element, over cells that a caller lends: what was put on last comes off first. Lent cells are
// the form that docs/DECISIONS.md lays down.
ghost use Rattle.std.specs.Prelude.{◌≡◌, ◌+◌, ◌-◌, ◌≤◌, IfOk, IfErr, if◌then◌else◌, [], ◌∷◌, ◌++◌, length, MatchOption, nat_lt};
ghost use Rattle.places.specs.Stack.{stacked};

// A place, and an instruction of its plan.
#[derive(Clone, Copy)]
pub struct Frame {
    pub place: u16,
    pub instruction: u16,
}

#[derive(Drop)]
pub struct Pushdown<'a, T> {
    cells: &'a mut [T],
    len: usize,
    ghost ok: { len ≤ length cells.now },
}

impl<'a, T: Copy> Pushdown<'a, T> {
    // An empty list over these cells.
    pub fn over(cells: &'a mut [T]) -> Self
        ensures empty { result.len ≡ 0 }
        ensures cells { result.cells.now ≡ cells.old }
    {
        Pushdown { cells, len: 0 }
    }

    // Puts an element on the list; gives it back where no cell is left.
    pub fn push(&mut self, x: T) -> Result<(), T>
        ensures room { result ≡ (if nat_lt self.old.len (length self.old.cells.now) then Ok tt else Err x) }
        ensures stack { IfOk result (λ _. stacked self.new.cells.now self.new.len ≡ stacked self.old.cells.now self.old.len ++ (x ∷ [])) }
        ensures len { IfOk result (λ _. self.new.len ≡ self.old.len + 1) }
        ensures full { IfErr result (λ _. (self.new.len ≡ self.old.len) × (self.new.cells.now ≡ self.old.cells.now)) }
        ensures cells { length self.new.cells.now ≡ length self.old.cells.now }
    {
        if self.len == self.cells.len() {
            return Err(x);
        }
        self.cells[self.len] = x;
        self.len += 1;
        Ok(())
    }

    // Takes off the element that was put on last.
    pub fn pop(&mut self) -> Option<T>
        ensures stack { MatchOption result ((self.old.len ≡ 0) × (self.new.len ≡ 0)) (λ x. stacked self.old.cells.now self.old.len ≡ stacked self.new.cells.now self.new.len ++ (x ∷ [])) }
        ensures cells { self.new.cells.now ≡ self.old.cells.now }
        ensures len { self.new.len ≡ self.old.len - 1 }
    {
        let top = self.top()?;
        self.len -= 1;
        Some(top)
    }

    // The element that was put on last.
    pub fn top(&self) -> Option<T>
        ensures { MatchOption result (self.now.len ≡ 0) (λ x. stacked self.now.cells.now self.now.len ≡ stacked self.now.cells.now (self.now.len - 1) ++ (x ∷ [])) }
    {
        let last = self.len.checked_sub(1)?;
        let cells: &[T] = self.cells;
        Some(cells[last])
    }
}
