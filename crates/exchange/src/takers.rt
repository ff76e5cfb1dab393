// The instances that take others as arguments become owed.
ghost use Rattle.std.specs.Prelude.{◌≡◌, ◌<◌, true, length, slice_index_or};
ghost use Rattle.grammar.specs.Rows.{equation_of};
ghost use Rattle.grammar.specs.Tests.{some};
ghost use Rattle.sheet.specs.Answers.{grammar_of};
ghost use Rattle.tour.specs.Rules.{rule, symbol, no_attribute};
ghost use Rattle.tour.specs.Trees.{at_of};
ghost use Rattle.places.specs.Places.{used, table};
ghost use Rattle.places.specs.Shape.{SoundPlaces};
ghost use Rattle.exchange.specs.Takers.{takes_from, wakes, takers_at, takers_of, FitsAt};
ghost use Rattle.exchange.specs.Waking.{Woke};

use super::setting::set_owed;
use super::taken::Taken;
use grammar::{Argument, EquationRow, Flow};
use places::{Node, Place, node_at};
use sheet::Sheet;

fn comes_from(argument: Argument, from: Taken) -> bool
    ensures { result ≡ takes_from from argument }
{
    match (from, argument) {
        (_, Argument::Datum) => false,
        (Taken::Occurrence(o), Argument::Of(occurrence, _)) => occurrence == o,
        (Taken::Attribute(o, a), Argument::Of(occurrence, attribute)) => occurrence == o
            && attribute == a,
    }
}

// Whether an argument of the equation comes from there.
fn takes(equation: &EquationRow, from: Taken) -> bool
    ensures { result ≡ some (takes_from from) equation.now.arguments.items }
{
    equation
        .arguments
        .as_slice()
        .iter()
        .any(|argument| comes_from(*argument, from))
}

// Makes the target of an equation of the rule at p owed, if it takes an argument from there.
fn wake_target(places: &mut [Place], p: u16, node: Node, equation: &EquationRow, from: Taken)
    requires { equation.now.attribute < 16 }
    ensures { Woke places.old places.new (wakes (at_of p node.children) from (equation_of equation.now)) }
{
    if takes(equation, from) {
        let target = node.occurrence_place(p, equation.occurrence);
        set_owed(places, target, equation.attribute);
    }
}

// Makes the targets of the equations of the rule at p that take an argument from there owed.
pub fn mark_takers(sheet: &Sheet, places: &mut [Place], p: u16, from: Taken)
    requires { FitsAt (grammar_of sheet.now) places.old p }
    ensures { Woke places.old places.new (takers_at (grammar_of sheet.now) (table (grammar_of sheet.now) places.old) p from) }
{
    // No value to map: what follows writes to the table, so a free place ends it here.
    let Some(node) = node_at(places, p) else {
        return;
    };
    let Some(group) = sheet.rule(usize::from(node.rule)) else {
        return;
    };
    for equation in group.equations {
        wake_target(places, p, node, equation, from);
    }
}

// The flow of an attribute of the left symbol of a rule; one that is not there counts as inherited.
fn flow(sheet: &Sheet, number: u16, attribute: u16) -> Flow
    requires { number < length (grammar_of sheet.now).rules }
    ensures { result ≡ (slice_index_or (symbol (grammar_of sheet.now) (rule (grammar_of sheet.now) number).left).attributes attribute no_attribute).flow }
{
    sheet
        .rule(usize::from(number))
        .and_then(|group| group.production.attribute(0, usize::from(attribute)))
        .map_or(Flow::Inherited, |attribute| attribute.flow)
}

// Makes the instances that take attribute a of the node at q as an argument owed.
pub fn wake_takers(sheet: &Sheet, places: &mut [Place], q: u16, a: u16)
    requires sound { SoundPlaces (grammar_of sheet.now) places.old }
    requires there { used places.old q ≡ true }
    ensures { Woke places.old places.new (takers_of (grammar_of sheet.now) (table (grammar_of sheet.now) places.old) (q, a)) }
{
    // No value to map: what follows writes to the table, so a free place ends it here.
    let Some(node) = node_at(places, q) else {
        return;
    };
    match (flow(sheet, node.rule, a), node.parent) {
        (Flow::Inherited, _) => mark_takers(sheet, places, q, Taken::Attribute(0, a)),
        (Flow::Synthesized, Some(parent)) => {
            let from = Taken::Attribute(parent.position, a);
            mark_takers(sheet, places, parent.place, from)
        }
        (Flow::Synthesized, None) => {}
    }
}
