// The evaluation of an instance.
ghost use Rattle.std.specs.Prelude.{◌≡◌, ◌+◌, ◌*◌, ◌<◌, ◌≤◌, true, ◌==◌, ◌&&◌, map, length, MatchBool, MatchOption, ◌≢◌, slice_index_or, slice_set};
ghost use Rattle.std.specs.List.{find};
ghost use Rattle.std.specs.Option.{option_map};
ghost use Rattle.grammar.specs.Model.{Grammar};
ghost use Rattle.grammar.specs.Rows.{equation_of, targets};
ghost use Rattle.places.specs.Places.{used, table, value_at};
ghost use Rattle.places.specs.Shape.{SoundPlaces};
ghost use Rattle.sheet.specs.Answers.{grammar_of};
ghost use Rattle.tour.specs.Results.{equation, own_result};
ghost use Rattle.tour.specs.Rules.{rule};
ghost use Rattle.tour.specs.Trees.{at_of};
ghost use Rattle.walk.specs.Ahead.{instance_of};
ghost use Rattle.walk.specs.Evaluation.{meaning_of, given_by, argument_by, result_by, NoEquation, Evaluates};
ghost use Rattle.sheet.specs.Meaning.{Sound};
ghost use Rattle.walk.specs.Walking.{Meeting};

use super::walker::Met;
use archive::{Archive, supplied};
use grammar::{Argument, EquationRow};
use places::{Node, Place, node_at};
use sheet::Sheet;
use std::mem;

// The equation for an attribute of an occurrence.
fn equation_for<'a>(
    equations: &'a [EquationRow],
    occurrence: u16,
    attribute: u16,
) -> Option<&'a EquationRow>
    ensures { option_map (λ e. e.now) result ≡ find (λ e. targets (equation_of e) occurrence attribute) equations.now }
{
    equations.iter().find(|row| row.targets(usize::from(occurrence), usize::from(attribute)))
}

// The value of an attribute at a place; the leaf of 0 where none is kept.
pub fn value_at<A: Archive>(
    archive: &A,
    values: &[A::Value],
    place: u16,
    attribute: u16,
) -> A::Value
    ensures { result ≡ value_at (A.leafs archive.now 0) values.now (place, attribute) }
{
    if attribute >= 16 {
        return archive.leaf(0);
    }
    let entry = 16 * usize::from(place) + usize::from(attribute);
    supplied(archive, values.get(entry).copied())
}

// What an evaluation reads: an archive, the values, and the node at a place.
#[derive(Drop)]
struct Desk<'a, A: Archive> {
    archive: &'a A,
    values: &'a [A::Value],
    place: u16,
    node: Node,
}

impl<'a, A: Archive> Desk<'a, A> {
    // The value of an argument of the rule at the place; the leaf of 0 where there is none.
    fn given(&self, argument: Option<Argument>) -> A::Value
        ensures { result ≡ given_by (meaning_of (A.leafs self.now.archive.now) (A.results self.now.archive.now)) (at_of self.now.place self.now.node.children) self.now.node.datum (value_at (A.leafs self.now.archive.now 0) self.now.values.now) argument }
    {
        match argument {
            None => self.archive.leaf(0),
            Some(Argument::Datum) => self.archive.leaf(self.node.datum),
            Some(Argument::Of(occurrence, attribute)) => {
                let from = self.node.occurrence_place(self.place, occurrence);
                value_at(self.archive, self.values, from, attribute)
            }
        }
    }

    // The value of one of the arguments of an equation.
    fn argument(&self, equation: &EquationRow, number: usize) -> A::Value
        ensures { result ≡ argument_by (meaning_of (A.leafs self.now.archive.now) (A.results self.now.archive.now)) (at_of self.now.place self.now.node.children) self.now.node.datum (value_at (A.leafs self.now.archive.now 0) self.now.values.now) equation.now.arguments.items number }
    {
        self.given(equation.arguments.as_slice().get(number).copied())
    }

    // What an equation of the rule at the place gives.
    fn result_of(&self, equation: &EquationRow) -> A::Value
        ensures { result ≡ result_by (meaning_of (A.leafs self.now.archive.now) (A.results self.now.archive.now)) (at_of self.now.place self.now.node.children) self.now.node.datum (value_at (A.leafs self.now.archive.now 0) self.now.values.now) (equation_of equation.now) }
    {
        self.archive.apply(
            equation.function,
            self.argument(equation, 0),
            self.argument(equation, 1),
            self.argument(equation, 2),
        )
    }
}

// The equation of what a walk met, by the node at the place of its rule.
fn equation_met<'a>(sheet: &'a Sheet, node: Node, met: Met) -> Option<&'a EquationRow>
    ensures { MatchOption result (NoEquation met.occurrence met.attribute (rule (grammar_of sheet.now) node.rule).equations) (λ e. equation met.occurrence met.attribute (rule (grammar_of sheet.now) node.rule).equations ≡ equation_of e.now) }
{
    let group = sheet.rule(usize::from(node.rule))?;
    equation_for(group.equations, met.occurrence, met.attribute)
}

// Evaluates an instance that a walk met, and says whether its value changed.
pub fn evaluate<A: Archive>(
    sheet: &Sheet,
    archive: &A,
    places: &[Place],
    values: &mut [A::Value],
    met: Met,
) -> bool
    requires accepted { Sound (grammar_of sheet.now) }
    requires sound { SoundPlaces (grammar_of sheet.now) places.now }
    requires meeting { Meeting (grammar_of sheet.now) places.now met }
    requires room { 16 * length places.now ≤ length values.old }
    ensures table { values.new ≡ slice_set values.old (16 * met.place + met.attribute) (own_result (meaning_of (A.leafs archive.now) (A.results archive.now)) (grammar_of sheet.now) (table (grammar_of sheet.now) places.now) met.rule_place met.occurrence met.attribute (value_at (A.leafs archive.now 0) values.old)) }
    ensures changed { MatchBool result (value_at (A.leafs archive.now 0) values.old (instance_of met) ≢ own_result (meaning_of (A.leafs archive.now) (A.results archive.now)) (grammar_of sheet.now) (table (grammar_of sheet.now) places.now) met.rule_place met.occurrence met.attribute (value_at (A.leafs archive.now 0) values.old)) (value_at (A.leafs archive.now 0) values.old (instance_of met) ≡ own_result (meaning_of (A.leafs archive.now) (A.results archive.now)) (grammar_of sheet.now) (table (grammar_of sheet.now) places.now) met.rule_place met.occurrence met.attribute (value_at (A.leafs archive.now 0) values.old)) }
    ensures evaluates { Evaluates (meaning_of (A.leafs archive.now) (A.results archive.now)) (grammar_of sheet.now) (table (grammar_of sheet.now) places.now) (instance_of met) result (value_at (A.leafs archive.now 0) values.old) (value_at (A.leafs archive.now 0) values.new) }
{
    // No value to map: what follows writes to the values, so a place without a node or an equation ends it here.
    let Some(node) = node_at(places, met.rule_place) else {
        return false;
    };
    let Some(equation) = equation_met(sheet, node, met) else {
        return false;
    };
    let desk = Desk {
        archive,
        values,
        place: met.rule_place,
        node,
    };
    let new = desk.result_of(equation);
    let entry = 16 * usize::from(met.place) + usize::from(met.attribute);
    let old = mem::replace(&mut values[entry], new);
    !archive.same(old, new)
}
