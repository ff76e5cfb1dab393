// What the instructions of a plan wait for.
ghost use Rattle.std.specs.Prelude.{◌≡◌, length, Some};
ghost use Rattle.std.specs.List.{slice_get};
ghost use Rattle.grammar.specs.Tests.{every_below};
ghost use Rattle.grammar.specs.declared.refusal.PlanRule.TheVariants.{ArgumentsFirst};
ghost use Rattle.plans.specs.Groups.{group_scope, group_equations, group_plan};
ghost use Rattle.plans.specs.PlanRules.{segment_at};
ghost use Rattle.plans.specs.PlanTests.{evaluated_before, flow_ready, known, known_at, passes};

use super::Group;
use super::scans::evaluated;
use grammar::{Argument, Attribute, Flow, Instruction};

// The part of a plan that stands before a place, and the segment in which the place lies.
#[derive(Clone, Copy)]
struct Read<'a> {
    before: &'a [Instruction],
    segment: usize,
    ghost counted: { segment ≡ segment_at before.now (length before.now) },
}

impl<'a> Read<'a> {
    // Whether the values of a visit of an occurrence are known behind it.
    fn knows(self, occurrence: u16, visit: u16) -> bool
        ensures { result ≡ known_at self.entry.before.now (length self.entry.before.now) occurrence visit }
    {
        if occurrence == 0 {
            usize::from(visit) <= self.segment
        } else {
            self.before.contains(&Instruction::Visit(occurrence, visit))
        }
    }
}

impl<'a> Group<'a> {
    // Whether each attribute of an occurrence with that flow and visit is evaluated in what stands before.
    fn evaluated_before(
        &self,
        before: &[Instruction],
        flow: Flow,
        occurrence: usize,
        visit: u16,
    ) -> bool
        ensures { result ≡ evaluated_before (group_scope self.now) before.now (length before.now) flow occurrence visit }
    {
        self.production
            .attributes(occurrence)
            .iter()
            .enumerate()
            .all(|(a, attribute)| {
                *attribute != Attribute { flow, visit } || evaluated(before, occurrence, a)
            })
    }

    // Whether what an instruction waits for is evaluated in what stands before it, of the attributes with that flow. A
    // visit waits for the inherited attributes that go down with it, a return for the synthesized ones that go up with it.
    fn flow_ready(&self, before: &[Instruction], flow: Flow, x: Instruction) -> bool
        ensures { result ≡ flow_ready flow (group_scope self.now) before.now (length before.now) (Some x) }
    {
        match (flow, x) {
            (Flow::Inherited, Instruction::Visit(k, j)) => self.evaluated_before(
                before,
                flow,
                usize::from(k),
                j,
            ),
            (Flow::Synthesized, Instruction::Return(j)) => self.evaluated_before(
                before, flow, 0, j,
            ),
            _ => true,
        }
    }

    // Whether each instruction stands behind the evaluations that it waits for.
    pub(super) fn all_ready(&self, flow: Flow) -> bool
        ensures { result ≡ every_below (λ i. flow_ready flow (group_scope self.now) (group_plan self.now) i (slice_get (group_plan self.now) i)) (length (group_plan self.now)) }
    {
        self.plan
            .iter()
            .enumerate()
            .all(|(i, x)| self.flow_ready(&self.plan[..i], flow, *x))
    }

    // Whether an argument is known behind the part of the plan that was read.
    fn known(&self, read: Read<'_>, argument: Argument) -> bool
        ensures { result ≡ known (group_scope self.now) read.entry.before.now (length read.entry.before.now) argument }
    {
        let Argument::Of(k, b) = argument else {
            return true;
        };
        // A match: the clause of `is_none_or` says nothing of what a closure answers that calls `knows`, not even where
        // the closure has clauses of its own.
        match self.production.attribute(usize::from(k), usize::from(b)) {
            Some(x) => read.knows(k, x.visit),
            None => true,
        }
    }

    // An evaluation waits for its arguments. Those from the left occurrence come with the segments, which the returns
    // end, so the returns are counted on the way.
    pub(super) fn arguments_first(&self) -> bool
        ensures { result ≡ passes ArgumentsFirst (group_scope self.now) (group_equations self.now) (group_plan self.now) }
    {
        let mut returns = 0usize;
        // Nested scans, left by the label at the first violation: the form that docs/DECISIONS.md lays down for this place.
        'check: {
            for (i, x) in self.plan.iter().enumerate() {
                match *x {
                    Instruction::Evaluate(o, a) => {
                        for equation in self.equations {
                            if equation.targets(usize::from(o), usize::from(a)) {
                                for argument in equation.arguments.as_slice() {
                                    let read = Read {
                                        before: &self.plan[..i],
                                        segment: returns + 1,
                                    };
                                    if !self.known(read, *argument) {
                                        break 'check false;
                                    }
                                }
                            }
                        }
                    }
                    Instruction::Visit(..) => {}
                    Instruction::Return(_) => returns += 1,
                }
            }
            true
        }
    }
}
