// A table is emptied.
ghost use Rattle.std.specs.Prelude.{◌≡◌, length, replicate, None};

use places::Place;

// Frees every place.
pub fn free_all(places: &mut [Place])
    ensures { places.new ≡ replicate (length places.old) None }
{
    places.fill(None);
}
