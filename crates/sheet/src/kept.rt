ghost use Rattle.std.specs.Prelude.{◌≡◌};
ghost use Rattle.reader.specs.Judgement.{grammar_in};
ghost use Rattle.reader.specs.Views.{state_of};
ghost use Rattle.sheet.specs.Kept.{read_back};

use reader::Tables;

// A grammar with its plans that was accepted, or nothing: what it writes reads back as itself.
#[derive(Drop)]
pub struct Sheet {
    pub(super) tables: Tables,
    ghost accepted: { read_back (grammar_in (state_of tables)) ≡ grammar_in (state_of tables) },
}
