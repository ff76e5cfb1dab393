// Facts about tables in shape, each proved where its function is.
ghost use Rattle.places.specs.Trees.{TreesLaw};

// A table in shape shows a tree at the root and at each held root, and each used place stands in one of them.
pub fn shape_shows_trees()
    ensures { TreesLaw }
{}
