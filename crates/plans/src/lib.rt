// The six rules that a plan has to meet.
#![tactic(auto)]

ghost use Rattle.std.specs.Prelude.{◌≡◌, if◌then◌else◌};
ghost use Rattle.std.specs.Result.{result_err};
ghost use Rattle.plans.specs.Groups.{group_scope, group_equations, group_plan, TestsTell};
ghost use Rattle.plans.specs.PlanRules.{FirstBroken};
ghost use Rattle.plans.specs.PlanTests.{first_broken};

mod evaluations;
mod scans;
mod turns;
mod waits;

use grammar::{EquationRow, Flow, Instruction, PlanRule, Production};

// A rule with its equations and its plan.
#[derive(Clone, Copy)]
pub struct Group<'a> {
    pub production: Production<'a>,
    pub equations: &'a [EquationRow],
    pub plan: &'a [Instruction],
}

impl<'a> Group<'a> {
    // The broken rule of least number, if any: each rule is looked at over the whole plan before the next.
    pub fn check(&self) -> Result<(), PlanRule>
        ensures value { result_err result ≡ first_broken (group_scope self.now) (group_equations self.now) (group_plan self.now) }
        ensures meaning { FirstBroken (group_scope self.now) (group_equations self.now) (group_plan self.now) (result_err result) }
    {
        require(self.returns_in_order(), PlanRule::ReturnsInOrder)?;
        require(self.one_evaluation(), PlanRule::OneEvaluation)?;
        require(self.visits_in_order(), PlanRule::VisitsInOrder)?;
        require(
            self.all_ready(Flow::Inherited),
            PlanRule::InheritedBeforeVisit,
        )?;
        require(
            self.all_ready(Flow::Synthesized),
            PlanRule::SynthesizedBeforeReturn,
        )?;
        require(self.arguments_first(), PlanRule::ArgumentsFirst)
    }
}

// The fault, unless what was asked holds.
pub fn require<E: Drop>(holds: bool, fault: E) -> Result<(), E>
    ensures { result_err result ≡ (if holds then None else Some fault) }
{
    if holds { Ok(()) } else { Err(fault) }
}

// The computing tests of the specification tell just where the rules hold.
pub fn tests_tell()
    ensures { TestsTell }
{}
