// The evaluations of a plan: each attribute that the rule defines once, and no other.
ghost use Rattle.std.specs.Prelude.{◌≡◌, length};
ghost use Rattle.grammar.specs.Scopes.{attributes_at};
ghost use Rattle.grammar.specs.Tests.{every, every_below};
ghost use Rattle.grammar.specs.declared.refusal.PlanRule.TheVariants.{OneEvaluation};
ghost use Rattle.plans.specs.Groups.{group_scope, group_equations, group_plan};
ghost use Rattle.plans.specs.PlanTests.{evaluates_defined, evaluates_once, passes};

use super::Group;
use super::scans::evaluated_once;
use grammar::Instruction;

impl<'a> Group<'a> {
    // Whether each attribute of an occurrence that the rule defines is evaluated at one place. A method of `Production`
    // for this and the like test of equations would take the test of an attribute as a closure, require that it may be
    // called, and speak of its answers.
    fn each_once(&self, occurrence: usize) -> bool
        ensures { result ≡ every_below (evaluates_once (group_scope self.now) (group_plan self.now) occurrence) (attributes_at (group_scope self.now) occurrence) }
    {
        (0..self.production.attributes(occurrence).len()).all(|a| {
            !self.production.defines(occurrence, a) || evaluated_once(self.plan, occurrence, a)
        })
    }

    // The left occurrence comes first, then the right ones.
    fn each_once_everywhere(&self) -> bool
        ensures { result ≡ every_below (λ o. every_below (evaluates_once (group_scope self.now) (group_plan self.now) o) (attributes_at (group_scope self.now) o)) (length (group_scope self.now).occurrences) }
    {
        (0..self.production.right.len() + 1).all(|o| self.each_once(o))
    }

    // Whether an instruction evaluates nothing, or an attribute that the rule defines.
    fn evaluates_defined(&self, x: Instruction) -> bool
        ensures { result ≡ evaluates_defined (group_scope self.now) x }
    {
        match x {
            Instruction::Evaluate(o, a) => self.production.defines(usize::from(o), usize::from(a)),
            Instruction::Visit(..) | Instruction::Return(_) => true,
        }
    }

    fn all_defined(&self) -> bool
        ensures { result ≡ every (evaluates_defined (group_scope self.now)) (group_plan self.now) }
    {
        self.plan.iter().all(|x| self.evaluates_defined(*x))
    }

    pub(super) fn one_evaluation(&self) -> bool
        ensures { result ≡ passes OneEvaluation (group_scope self.now) (group_equations self.now) (group_plan self.now) }
    {
        self.each_once_everywhere() && self.all_defined()
    }
}
