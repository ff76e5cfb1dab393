// The values of a new block.
ghost use Rattle.std.specs.Prelude.{◌≡◌, ◌+◌, ◌*◌, ◌≤◌, true, [], ◌∷◌, length};
ghost use Rattle.sheet.specs.Answers.{grammar_of};
ghost use Rattle.tour.specs.Blocks.{reads};
ghost use Rattle.tour.specs.Trees.{Forest};
ghost use Rattle.blocks.specs.Blank.{blank_row, blanked, Blanked};
ghost use Rattle.blocks.specs.Block.{pairs, own_symbol};
ghost use Rattle.places.specs.Totals.{free};
ghost use Rattle.blocks.specs.Taken.{taken};
ghost use Rattle.blocks.specs.Written.{BlockTree};

use super::finding::first_free;
use super::piece::Piece;
use archive::Archive;
use places::{Place, kind_of};
use sheet::Sheet;

// Sets the first values of a place.
fn blank_row<V: Copy>(values: &mut [V], place: usize, count: usize, blank: V)
    requires { 16 * place + count ≤ length values.old }
    ensures { values.new ≡ blank_row blank place count values.old }
{
    let first = 16 * place;
    // No `fill`, which asks that a clone cannot fail, and `Copy` alone does not say so.
    for value in &mut values[first..first + count] {
        *value = blank;
    }
}

// Sets all values of a block to the leaf of 0, at the places that it is to take in a table.
pub fn blank_values<A: Archive>(
    sheet: &Sheet,
    archive: &A,
    places: &[Place],
    block: &[Piece],
    values: &mut [A::Value],
)
    requires judged { reads (grammar_of sheet.now) (own_symbol (grammar_of sheet.now) block.now ∷ []) (pairs block.now) ≡ true }
    requires room { length block.now ≤ length (free places.now) }
    requires entries { 16 * length places.now ≤ length values.old }
    ensures entries { values.new ≡ blanked (grammar_of sheet.now) (A.leafs archive.now 0) block.now (taken places.now (length block.now)) values.old }
    ensures blank { (f : Forest) → BlockTree (grammar_of sheet.now) places.now block.now f → Blanked (grammar_of sheet.now) (A.leafs archive.now 0) f values.old values.new }
{
    let blank = archive.leaf(0);
    // Zipped with a filtered chain of places the loop would need no number, but the check can't type that chain's iterator
    // in a generic function.
    let mut next = 0;
    for piece in block {
        // No value to map: what follows writes to the values, so an unknown rule, or no free place, ends it here.
        let Some(kind) = kind_of(sheet, piece.rule as usize) else {
            return;
        };
        let Some(place) = first_free(places, next) else {
            return;
        };
        blank_row(values, place, kind.attributes, blank);
        next = place + 1;
    }
}
