// What holds of blocks whatever the code.
ghost use Rattle.blocks.specs.Judged.{JudgementLaw};
ghost use Rattle.blocks.specs.Sound.{SoundLaw, EmptyLaw};
ghost use Rattle.blocks.specs.Taken.{TakenLaw};

// The places that a block takes are as many as its pieces, no two the same, and free till then.
pub fn taken_places_stand()
    ensures { TakenLaw }
{}

// A sound table is sound after a block that is not too deep is written into it.
pub fn written_blocks_stand()
    ensures { SoundLaw }
{}

// Just the pieces of one tree of the right symbol, not too many and not too deep, have no fault.
pub fn judgement_stands()
    ensures { JudgementLaw }
{}

// A table with every place free is sound.
pub fn empty_tables_stand()
    ensures { EmptyLaw }
{}
