// The moves of a walk.
ghost use Rattle.std.specs.Prelude.{◌≡◌, ◌+◌, ◌<◌, ◌≤◌, true, false, length};
ghost use Rattle.places.specs.Places.{table};
ghost use Rattle.sheet.specs.Answers.{grammar_of};
ghost use Rattle.walk.specs.Moves.{passing, inside, left, moved, meets};
ghost use Rattle.walk.specs.Stands.{stand_of};
ghost use Rattle.walk.specs.Walking.{Walking, at_end};

use super::look::instruction_at;
use super::walker::{Met, Mode, Walk};
use grammar::Instruction;
use places::{Frame, Place, node_at};
use sheet::Sheet;

// The mode in which so many returns are still to be passed.
fn passing(returns: u16) -> Mode
    ensures { result ≡ passing returns }
{
    match returns {
        0 => Mode::InPlan,
        _ => Mode::Entering(returns),
    }
}

impl<'p, 'c> Walk<'p, 'c> {
    // Whether nothing is left to walk.
    pub fn is_done(&self) -> bool
        ensures { result ≡ at_end self.now.mode }
    {
        self.mode == Mode::Done
    }

    // Out of a visit: back to where it began, or to the end.
    fn leave(&mut self)
        ensures { stand_of self.new ≡ left (stand_of self.old).frames (stand_of self.old) }
    {
        match self.frames.pop() {
            None => self.mode = Mode::Done,
            Some(frame) => {
                self.mode = Mode::Returning;
                self.place = frame.place;
                self.next = frame.instruction;
            }
        }
    }

    // Into a visit of an occurrence, which stands at that place.
    fn enter(&mut self, child: u16, visit: u16)
        requires room { length (stand_of self.old).frames < (stand_of self.old).room }
        requires first { 1 ≤ visit }
        ensures { stand_of self.new ≡ inside child visit (stand_of self.old) }
    {
        let under_way = Frame {
            place: self.place,
            instruction: self.next,
        };
        self.frames.push(under_way).unwrap();
        self.mode = passing(visit - 1);
        self.place = child;
        self.next = 0;
    }

    // One move, at the instruction where the walk stands. An evaluation in the plan is met. Mode and instruction are matched
    // together: the form that docs/DECISIONS.md lays down for this place.
    pub fn advance(&mut self, sheet: &Sheet, places: &[Place]) -> Option<Met>
        requires { Walking (grammar_of sheet.now) places.now (stand_of self.old) }
        ensures stand { stand_of self.new ≡ moved (grammar_of sheet.now) (table (grammar_of sheet.now) places.now) (stand_of self.old) }
        ensures met { result ≡ meets (grammar_of sheet.now) (table (grammar_of sheet.now) places.now) (stand_of self.old) }
    {
        let node = node_at(places, self.place)?;
        let instruction = instruction_at(sheet, places, self.place, self.next)?;
        match (self.mode, instruction) {
            (Mode::InPlan, Instruction::Evaluate(occurrence, attribute)) => {
                self.next += 1;
                return Some(Met {
                    rule_place: self.place,
                    occurrence,
                    attribute,
                    place: node.occurrence_place(self.place, occurrence),
                });
            }
            (Mode::InPlan, Instruction::Visit(occurrence, visit)) => {
                let child = node.occurrence_place(self.place, occurrence);
                self.enter(child, visit);
            }
            (Mode::InPlan, Instruction::Return(_)) => self.leave(),
            (Mode::Entering(returns), Instruction::Return(_)) => {
                self.mode = passing(returns - 1);
                self.next += 1;
            }
            (Mode::Entering(_), _) => self.next += 1,
            (Mode::Returning, Instruction::Visit(_, _)) => {
                self.mode = Mode::InPlan;
                self.next += 1;
            }
            (Mode::Returning, _) | (Mode::Done, _) => {}
        }
        None
    }
}
