// Facts about trees of blocks and the order in which their attributes are evaluated, each proved where its function is.
#![tactic(auto)]

ghost use Rattle.tour.specs.Blocks.{BlockLaw};
ghost use Rattle.tour.specs.Engine.{EngineLaw};
ghost use Rattle.tour.specs.Entering.{EntryLaw};
ghost use Rattle.tour.specs.Exchange.{GraftLaw};
ghost use Rattle.tour.specs.Incremental.{Incremental};
ghost use Rattle.tour.specs.OneWalk.{OneWalk};
ghost use Rattle.tour.specs.Roots.{RootsLaw};
ghost use Rattle.tour.specs.Steady.{Steadiness};
ghost use Rattle.tour.specs.Takers.{Takers};
ghost use Rattle.tour.specs.Touring.{TourLaw};
ghost use Rattle.tour.specs.Walks.{WalkLaw};
ghost use Rattle.tour.specs.Worked.{WorkedTour};

// Steps that evaluate the first owed instance of a tour come to the values of a fresh evaluation, and evaluate no more
// than they must.
pub fn incremental_evaluation_stands<V>()
    ensures { Incremental V }
{}

// The tour of a tree has each of its instances once, behind its arguments.
pub fn tour_stands()
    ensures { TourLaw }
{}

// A table in shape holds a tree at every root, and no place stands in two.
pub fn trees_stand()
    ensures { RootsLaw }
{}

// A walk with at most 64 frames goes through the tour, also where it passes returns to come to a visit; and one walk
// settles.
pub fn one_walk_stands<V>()
    ensures frames { WalkLaw }
    ensures entries { EntryLaw }
    ensures settles { OneWalk V }
{}

// A block in place of a subtree leaves two trees, and what is not made owed keeps its equation's result; so it does when
// blocks are opened, planted and discarded.
pub fn exchange_stands<V>()
    ensures trees { GraftLaw }
    ensures steady { Steadiness V }
{}

// The engine over a table in shape comes to the values of a fresh evaluation of the day's tree; what takes an instance
// is found at its own node and at the parent's.
pub fn engine_stands<V>()
    ensures engine { EngineLaw V }
    ensures takers { Takers V }
{}

// Just the blocks that are read mean trees, and each means one.
pub fn blocks_stand()
    ensures { BlockLaw }
{}

// The worked day: its sheet is sound, and its tour has thirteen instances.
pub fn worked_tour_stands()
    ensures { WorkedTour }
{}
