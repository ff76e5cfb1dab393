// What a walk reads off the sheet and the places.
ghost use Rattle.std.specs.Prelude.{◌≡◌, ◌≤◌, true, length};
ghost use Rattle.std.specs.List.{slice_get};
ghost use Rattle.grammar.specs.Model.{Grammar};
ghost use Rattle.places.specs.Places.{at, used, table};
ghost use Rattle.sheet.specs.Answers.{grammar_of};
ghost use Rattle.tour.specs.Trees.{at_of};
ghost use Rattle.tour.specs.Walks.{plan_at};

use grammar::Instruction;
use places::{Place, node_at};
use sheet::Sheet;

// An instruction of the plan of the rule at a place, where a node has to stand.
pub fn instruction_at(
    sheet: &Sheet,
    places: &[Place],
    place: u16,
    number: u16,
) -> Option<Instruction>
    requires { used places.now place ≡ true }
    ensures { result ≡ slice_get (plan_at (grammar_of sheet.now) (table (grammar_of sheet.now) places.now) place) number }
{
    let node = node_at(places, place)?;
    let group = sheet.rule(usize::from(node.rule))?;
    group.plan.get(usize::from(number)).copied()
}
