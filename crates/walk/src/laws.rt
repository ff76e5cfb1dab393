// Facts about walks, each proved where its function is.
ghost use Rattle.walk.specs.Walking.{MovesLaw};
ghost use Rattle.walk.specs.Marked.{MarksLaw};
ghost use Rattle.walk.specs.OneWalk.{OneWalkLaw};

// A move keeps a walk under way, meets at most the first instance ahead, and takes some of the effort.
pub fn moves_stand()
    ensures { MovesLaw }
{}

// Marks are nothing to a walk: while only they change it stays under way, with the same instances ahead.
pub fn marks_are_passed()
    ensures { MarksLaw }
{}

// What one walk finds are the instances that steps evaluate, in their order; it never has to start again.
pub fn one_walk_finds()
    ensures { OneWalkLaw }
{}
