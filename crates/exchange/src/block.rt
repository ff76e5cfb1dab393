// A block, from its root without a parent down: the freeing of all its places.
ghost use Rattle.std.specs.Prelude.{◌≡◌, ◌≤◌, true, length, None};
ghost use Rattle.sheet.specs.Answers.{grammar_of};
ghost use Rattle.places.specs.Places.{used, parent_at, table};
ghost use Rattle.places.specs.Shape.{SoundPlaces};
ghost use Rattle.exchange.specs.Freeing.{Freed, UsedChild};

use places::{Place, Pushdown, arity_of, node_at};
use sheet::Sheet;

// The first child of the node at p whose place is used.
fn used_child(sheet: &Sheet, places: &[Place], p: u16) -> Option<u16>
    ensures { UsedChild places.now (table (grammar_of sheet.now) places.now p).kids result }
{
    let node = node_at(places, p)?;
    (0..arity_of(sheet, node.rule))
        .map(|k| node.child(k))
        .find(|child| node_at(places, *child).is_some())
}

// Frees the places of a block. The list holds the way from the root down to where the work is, which no shape of block
// makes longer than 64; a place goes when no child of it is left.
pub fn free_block(sheet: &Sheet, places: &mut [Place], block: u16, cells: &mut [u16])
    requires sound { SoundPlaces (grammar_of sheet.now) places.old }
    requires there { used places.old block ≡ true }
    requires top { parent_at places.old block ≡ None }
    requires room { 64 ≤ length cells.old }
    ensures { Freed places.old places.new block }
{
    let mut path = Pushdown::over(cells);
    path.push(block).unwrap();
    // A loop, since each turn changes the list, and the table, that the next one asks.
    while let Some(p) = path.top() {
        match used_child(sheet, places, p) {
            Some(child) => path.push(child).unwrap(),
            None => {
                places[usize::from(p)] = None;
                path.pop();
            }
        }
    }
}
