// What stands where in a plan.
ghost use Rattle.std.specs.Prelude.{◌≡◌, position};
ghost use Rattle.grammar.specs.declared.terms.Instruction.TheVariants.{Evaluate};
ghost use Rattle.plans.specs.PlanTests.{same_instruction, stands, once};

use grammar::Instruction;

// Whether an instruction evaluates attribute a of occurrence o. These are places in tables, which may lie past what an
// instruction can name, so that there may be no instruction to compare with.
fn evaluates(x: Instruction, o: usize, a: usize) -> bool
    ensures { result ≡ same_instruction (Evaluate o a) x }
{
    matches!(x, Instruction::Evaluate(p, b) if usize::from(p) == o && usize::from(b) == a)
}

// Whether attribute a of occurrence o is evaluated there.
pub(super) fn evaluated(plan: &[Instruction], o: usize, a: usize) -> bool
    ensures { result ≡ stands (Evaluate o a) plan.now }
{
    plan.iter().any(|x| evaluates(*x, o, a))
}

// How many instructions stand before the first that evaluates attribute a of occurrence o.
fn before_evaluation(plan: &[Instruction], o: usize, a: usize) -> Option<usize>
    ensures { result ≡ position (same_instruction (Evaluate o a)) plan.now }
{
    plan.iter().position(|x| evaluates(*x, o, a))
}

// Whether attribute a of occurrence o is evaluated at one place. What stands behind the first is looked through up to a second.
pub(super) fn evaluated_once(plan: &[Instruction], o: usize, a: usize) -> bool
    ensures { result ≡ once (Evaluate o a) plan.now }
{
    let Some(first) = before_evaluation(plan, o, a) else {
        return false;
    };
    !evaluated(&plan[first + 1..], o, a)
}
