// Free places are found in order.
ghost use Rattle.std.specs.Prelude.{◌≡◌, ◌+◌, ◌<◌, ◌≤◌, [], ◌∷◌, is_some, length, not, position, IfSome, MatchOption};
ghost use Rattle.places.specs.Totals.{free};
ghost use Rattle.blocks.specs.Taken.{free_after};

use places::Place;

// How many places stand before the first free one.
fn before_free(places: &[Place]) -> Option<usize>
    ensures { result ≡ position (λ p. not (is_some p)) places.now }
{
    places.iter().position(|place| place.is_none())
}

// The first free place from that number on.
pub fn first_free(places: &[Place], from: usize) -> Option<usize>
    ensures found { MatchOption result (free_after from places.now ≡ []) (λ p. free_after from places.now ≡ p ∷ free_after (p + 1) places.now) }
    ensures there { IfSome result (λ p. (from ≤ p) × (p < length places.now)) }
{
    before_free(places.get(from..)?).map(|ahead| from + ahead)
}
