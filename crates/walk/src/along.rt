// A walk goes on along the tour.
ghost use Rattle.std.specs.Prelude.{◌≡◌, ◌<◌, ◌≤◌, List, length, Option as Maybe, MatchOption};
ghost use Rattle.grammar.specs.Model.{Grammar};
ghost use Rattle.places.specs.Places.{owed_at};
ghost use Rattle.places.specs.Shape.{InShape};
ghost use Rattle.sheet.specs.Answers.{grammar_of};
ghost use Rattle.walk.specs.Ahead.{instance_of};
ghost use Rattle.walk.specs.Moves.{starting};
ghost use Rattle.walk.specs.Stands.{stand_of};
ghost use Rattle.sheet.specs.Meaning.{Sound};
ghost use Rattle.walk.specs.Walking.{Walking, Started, Reached, Ended, OwedNext, NoneOwed};

use super::walker::{Met, Mode, Walk};
use places::{Frame, Node, Place, Pushdown, is_owed, node_at};
use sheet::Sheet;

// Whether an instance that a walk met is owed.
#[tactic(auto, using(crate::proofs::Going::none_owes))]
pub fn is_due(places: &[Place], met: Met) -> bool
    ensures { result ≡ owed_at places.now (instance_of met) }
{
    node_at(places, met.place).is_some_and(|node| is_owed(node.marks, met.attribute))
}

// The table may change between two calls, so that a walk is under way in it is asked of each call and not kept in the walk.
impl<'p, 'c> Walk<'p, 'c> {
    // A walk before the first instruction of the plan at the root.
    pub fn start(root: u16, frames: &'p mut Pushdown<'c, Frame>) -> Walk<'p, 'c>
        requires empty { frames.old.len ≡ 0 }
        requires room { 64 ≤ length frames.old.cells.now }
        ensures stand { stand_of result ≡ starting root (length frames.old.cells.now) }
        ensures started { (g : Grammar) (ps : List (Maybe Node)) → Sound g → InShape g ps root → Started g ps root (stand_of result) }
    {
        Walk {
            mode: Mode::InPlan,
            place: root,
            next: 0,
            frames,
        }
    }

    // Moves on to the next instance of the tour.
    // A loop and no search by a closure: each turn changes the walk, and a closure tells the proof nothing of what it changes.
    pub fn next_instance(&mut self, sheet: &Sheet, places: &[Place]) -> Option<Met>
        requires { Walking (grammar_of sheet.now) places.now (stand_of self.old) }
        ensures { MatchOption result (Ended (grammar_of sheet.now) places.now (stand_of self.old) (stand_of self.new)) (λ m. Reached (grammar_of sheet.now) places.now (stand_of self.old) m (stand_of self.new)) }
    {
        while !self.is_done() {
            if let Some(met) = self.advance(sheet, places) {
                return Some(met);
            }
        }
        None
    }

    // Goes on to the next owed instance of the tour, and never back.
    // A loop and no search by a closure: each turn changes the walk, and a closure tells the proof nothing of what it changes.
    pub fn next_owed(&mut self, sheet: &Sheet, places: &[Place]) -> Option<Met>
        requires { Walking (grammar_of sheet.now) places.now (stand_of self.old) }
        ensures { MatchOption result (NoneOwed (grammar_of sheet.now) places.now (stand_of self.old) (stand_of self.new)) (λ m. OwedNext (grammar_of sheet.now) places.now (stand_of self.old) m (stand_of self.new)) }
    {
        while let Some(found) = self.next_instance(sheet, places) {
            if is_due(places, found) {
                return Some(found);
            }
        }
        None
    }
}
