// How deep blocks are.
ghost use Rattle.std.specs.Prelude.{◌≡◌, true, None};
ghost use Rattle.places.specs.Places.{used, parent_at};
ghost use Rattle.exchange.specs.Heights.{depth_in, Height};

use places::{Place, climb};

// The depth of a place of the block; 0 for every other place.
fn depth_in(places: &[Place], block: u16, q: usize) -> u16
    ensures { result ≡ depth_in places.now block q }
{
    // Asked first, so that no free place is climbed from.
    let used = places.get(q).is_some_and(|place| place.is_some());
    if !used {
        return 0;
    }
    let summit = climb(places, q);
    if summit.top == usize::from(block) {
        summit.depth
    } else {
        0
    }
}

// The largest depth of a place of the block with that root.
pub fn height(places: &[Place], block: u16) -> u16
    requires there { used places.now block ≡ true }
    requires top { parent_at places.now block ≡ None }
    ensures { Height places.now block result }
{
    (0..places.len())
        .map(|q| depth_in(places, block, q))
        .max()
        .unwrap_or(0)
}
