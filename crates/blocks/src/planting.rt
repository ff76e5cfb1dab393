// Blocks are written into free places.
ghost use Rattle.std.specs.Prelude.{◌≡◌, ◌+◌, ◌-◌, ◌^◌, ◌<◌, ◌≤◌, true, [], ◌∷◌, length, MatchOption};
ghost use Rattle.sheet.specs.Answers.{grammar_of};
ghost use Rattle.tour.specs.Blocks.{reads};
ghost use Rattle.blocks.specs.Block.{pairs, own_symbol};
ghost use Rattle.blocks.specs.Planted.{next_to, first_below};
ghost use Rattle.blocks.specs.Plantings.{NoPlanting, Planting, position_in};
ghost use Rattle.places.specs.Totals.{free};
ghost use Rattle.blocks.specs.Written.{Written};

use super::finding::first_free;
use super::piece::Piece;
use places::{Node, Parent, Place, kind_of};
use sheet::Sheet;

// The marks under which that many attributes are owed.
fn all_owed(attributes: usize) -> u16
    requires { attributes ≤ 16 }
    ensures { result ≡ 2 ^ attributes - 1 }
{
    ((1u32 << attributes) - 1) as u16
}

// The next position below the same parent.
fn next_to(up: Option<Parent>) -> Option<Parent>
    requires { position_in up < 8 }
    ensures { result ≡ next_to up }
{
    up.map(|Parent { place, position }| Parent {
        place,
        position: position + 1,
    })
}

// The first position below a place.
fn first_below(place: usize) -> Option<Parent>
    requires { place < 65536 }
    ensures { result ≡ first_below place }
{
    Some(Parent {
        place: place as u16,
        position: 1,
    })
}

// The node that a piece becomes, all its attributes owed.
fn new_node(piece: Piece, up: Option<Parent>, children: [u16; 4], attributes: usize) -> Node
    requires { (piece.rule < 65536) × (attributes ≤ 16) }
    ensures { result ≡ record { rule = piece.rule; datum = piece.datum; parent = up; children = children; marks = 2 ^ attributes - 1 } }
{
    Node {
        rule: piece.rule as u16,
        datum: piece.datum,
        parent: up,
        children,
        marks: all_owed(attributes),
    }
}

// The sheet, the pieces that are still to be planted, and the number from which on free places are looked for.
#[derive(Clone, Copy)]
struct Planter<'b, 's> {
    sheet: &'s Sheet,
    pieces: &'b [Piece],
    next: usize,
}

impl<'b, 's> Planter<'b, 's> {
    // Plants a row of that many trees, the first under that parent. The answer has the places of their roots. It goes down
    // the row as a forest is defined, one tree and the row beside it; a loop over the row would have to say that again.
    // Four roots, as a node has room for four children by the table's layout and is copied, which no vector is.
    fn plant_row(
        &mut self,
        places: &mut [Place],
        up: Option<Parent>,
        count: usize,
    ) -> Option<[u16; 4]>
        requires { (length places.old ≤ 65536) × (position_in up + count ≤ 5) }
        ensures sheet { self.new.sheet.now ≡ self.old.sheet.now }
        ensures pieces { length self.new.pieces.now ≤ length self.old.pieces.now }
        ensures planted { MatchOption result (NoPlanting (grammar_of self.old.sheet.now) count self.old.pieces.now self.old.next places.old) (λ roots. Planting (grammar_of self.old.sheet.now) up count self.old.pieces.now self.old.next places.old roots self.new.pieces.now self.new.next places.new) }
    {
        if count == 0 {
            return Some([0; 4]);
        }
        let [first, rest @ ..] = self.pieces else {
            return None;
        };
        let kind = kind_of(self.sheet, first.rule as usize)?;
        let place = first_free(places, self.next)?;
        self.pieces = rest;
        self.next = place + 1;
        let children = self.plant_row(places, first_below(place), kind.right.len())?;
        places[place] = Some(new_node(*first, up, children, kind.attributes));
        let [second, third, fourth, _] = self.plant_row(places, next_to(up), count - 1)?;
        Some([place as u16, second, third, fourth])
    }
}

// Writes a block, judged before, into the first free places. The answer is the place of its root.
pub fn write_block(sheet: &Sheet, places: &mut [Place], block: &[Piece]) -> u16
    requires judged { reads (grammar_of sheet.now) (own_symbol (grammar_of sheet.now) block.now ∷ []) (pairs block.now) ≡ true }
    requires room { length block.now ≤ length (free places.old) }
    requires few { length places.old ≤ 65536 }
    ensures { Written (grammar_of sheet.now) places.old block.now result places.new }
{
    let mut planter = Planter {
        sheet,
        pieces: block,
        next: 0,
    };
    let [root, ..] = planter.plant_row(places, None, 1).unwrap();
    root
}
