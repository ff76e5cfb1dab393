// Facts about sheets, each proved where its function is.
ghost use Rattle.sheet.specs.Meaning.{Acceptance, PlanRefusals};
ghost use Rattle.sheet.specs.Worked.{WorkedSheets};

// Just the texts that are sheets are accepted; a refused plan breaks the rule that is named, and none before it.
pub fn acceptance_stands()
    ensures accepts { Acceptance }
    ensures refuses { PlanRefusals }
{}

// The worked sheet and its two broken variants.
pub fn worked_sheets_stand()
    ensures { WorkedSheets }
{}
