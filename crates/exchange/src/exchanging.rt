// The exchange of a subtree for a held block.
ghost use Rattle.std.specs.Prelude.{◌≡◌, ◌<◌, ◌≤◌, true, ◌&&◌, length, Some};
ghost use Rattle.grammar.specs.Scopes.{scope_of, takes};
ghost use Rattle.sheet.specs.Answers.{grammar_of};
ghost use Rattle.places.specs.Places.{used, parent_at, table};
ghost use Rattle.places.specs.Shape.{SoundPlaces};
ghost use Rattle.exchange.specs.Exchanging.{hung_below, inherited_at, ExchangedPlaces};
ghost use Rattle.exchange.specs.Takers.{FitsAt};
ghost use Rattle.exchange.specs.Waking.{Woke, is_at};

use super::setting::{set_child, set_owed, set_parent};
use super::taken::Taken;
use super::takers::mark_takers;
use grammar::Production;
use places::{Parent, Place, node_at, parent_at};
use sheet::Sheet;

// Hangs the held root where the node at target hung.
fn hang(places: &mut [Place], target: u16, held: u16, parent: Parent)
    requires { 1 ≤ parent.position }
    ensures { places.new ≡ hung_below places.old target held (Some parent) }
{
    set_child(places, parent.place, parent.position - 1, held);
    set_parent(places, target, None);
    set_parent(places, held, Some(parent));
}

// Makes attribute a of the node at p owed, if its rule takes it from above.
fn wake_if_inherited(production: &Production, places: &mut [Place], p: u16, a: u16)
    requires { a < 16 }
    ensures { Woke places.old places.new (λ x. is_at p a x && takes (scope_of production.now) 0 a) }
{
    if production.takes(0, usize::from(a)) {
        set_owed(places, p, a);
    }
}

// Makes the inherited attributes of the node at p owed.
fn wake_inherited(sheet: &Sheet, places: &mut [Place], p: u16)
    requires { FitsAt (grammar_of sheet.now) places.old p }
    ensures { Woke places.old places.new (inherited_at (grammar_of sheet.now) (table (grammar_of sheet.now) places.old) p) }
{
    // No value to map: what follows writes to the table, so a free place ends it here.
    let Some(node) = node_at(places, p) else {
        return;
    };
    let Some(group) = sheet.rule(usize::from(node.rule)) else {
        return;
    };
    // Marks go by the numbers of attributes, so these are counted.
    for a in 0..16 {
        wake_if_inherited(&group.production, places, p, a);
    }
}

// Exchanges the subtree at target for the held block; a target without a parent stays as it is. No type carries that
// places are sound, since they stay so only where `Exchangeable` holds.
pub fn exchange(sheet: &Sheet, places: &mut [Place], target: u16, held: u16)
    requires sound { SoundPlaces (grammar_of sheet.now) places.old }
    requires target { used places.old target ≡ true }
    requires held { used places.old held ≡ true }
    ensures { ExchangedPlaces (grammar_of sheet.now) places.old places.new target held }
{
    if let Some(parent) = parent_at(places, usize::from(target)) {
        hang(places, target, held, parent);
        wake_inherited(sheet, places, held);
        let from = Taken::Occurrence(parent.position);
        mark_takers(sheet, places, parent.place, from);
    }
}
