// The turns of an occurrence: the visits to a right one, the returns of the left one.
ghost use Rattle.std.specs.Prelude.{◌≡◌, [], ◌∷◌};
ghost use Rattle.grammar.specs.Scopes.{visits_at};
ghost use Rattle.grammar.specs.declared.terms.Instruction.TheVariants.{Return};
ghost use Rattle.std.specs.Option.{option_to_list};
ghost use Rattle.grammar.specs.declared.refusal.PlanRule.TheVariants.{ReturnsInOrder, VisitsInOrder};
ghost use Rattle.plans.specs.Groups.{group_scope, group_equations, group_plan};
ghost use Rattle.plans.specs.PlanTests.{turns_of, in_order, ends_with, passes};

use super::Group;
use grammar::Instruction;

// The turn that an instruction is of that occurrence, if it is one.
fn turn_of(x: Instruction, occurrence: usize) -> Option<u16>
    ensures { option_to_list result ≡ turns_of occurrence (x ∷ []) }
{
    match x {
        Instruction::Visit(k, j) if occurrence != 0 && usize::from(k) == occurrence => Some(j),
        Instruction::Return(j) if occurrence == 0 => Some(j),
        _ => None,
    }
}

impl<'a> Group<'a> {
    // Whether the turns of an occurrence are 1 to its number of visits, once each, in order.
    fn in_order(&self, occurrence: usize) -> bool
        ensures { result ≡ in_order (group_scope self.now) (group_plan self.now) occurrence }
    {
        // A loop: of a chain that compares the turns with the numbers from 1 on, the proof fits that one chain alone, and a
        // slip in the comparison would be refused for the chain's form and not for its answer.
        let visits = self.production.visits(occurrence);
        let mut done = 0u16;
        for x in self.plan {
            if let Some(turn) = turn_of(*x, occurrence) {
                if done == visits || turn != done + 1 {
                    return false;
                }
                done += 1;
            }
        }
        done == visits
    }

    // Whether the last instruction is the return from the left symbol's last visit.
    fn ends(&self) -> bool
        ensures { result ≡ ends_with (Return (visits_at (group_scope self.now) 0)) (group_plan self.now) }
    {
        let last = Instruction::Return(self.production.visits(0));
        self.plan.last() == Some(&last)
    }

    pub(super) fn returns_in_order(&self) -> bool
        ensures { result ≡ passes ReturnsInOrder (group_scope self.now) (group_equations self.now) (group_plan self.now) }
    {
        self.in_order(0) && self.ends()
    }

    pub(super) fn visits_in_order(&self) -> bool
        ensures { result ≡ passes VisitsInOrder (group_scope self.now) (group_equations self.now) (group_plan self.now) }
    {
        (0..self.production.right.len()).all(|k| self.in_order(k + 1))
    }
}
