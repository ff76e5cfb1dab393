// What a sheet holds, by its model.
ghost use Rattle.std.specs.Prelude.{◌≡◌, map, IfSome, MatchBool};
ghost use Rattle.std.specs.Option.{option_map};
ghost use Rattle.std.specs.List.{slice_get};
ghost use Rattle.grammar.specs.Rows.{symbol_of};
ghost use Rattle.plans.specs.Groups.{group_scope};
ghost use Rattle.sheet.specs.Answers.{grammar_of, group_rule, Counted};
ghost use Rattle.sheet.specs.Kept.{empty};
ghost use Rattle.sheet.specs.Meaning.{SheetOf};
ghost use Rattle.sheet.specs.Writing.{write};

use super::counts::Counts;
use super::kept::Sheet;
use grammar::SymbolRow;
use plans::Group;

impl Sheet {
    // Whether no sheet was accepted. What was accepted meets every rule, and its writing is a sheet.
    pub fn is_empty(&self) -> bool
        ensures { MatchBool result (grammar_of self.now ≡ empty) (SheetOf (write (grammar_of self.now)) (grammar_of self.now)) }
    {
        self.tables.rules.is_empty()
    }

    pub fn symbols(&self) -> &[SymbolRow]
        ensures { map symbol_of result.now ≡ (grammar_of self.now).symbols }
    {
        self.tables.symbols.as_slice()
    }

    // A rule with its equations and its plan.
    pub fn rule(&self, number: usize) -> Option<Group<'_>>
        ensures rule { option_map group_rule result ≡ slice_get (grammar_of self.now).rules number }
        ensures symbols { IfSome result (λ g. (group_scope g).symbols ≡ (grammar_of self.now).symbols) }
    {
        let row = self.tables.rules.get(number)?;
        Some(Group {
            production: row.rule.production(&self.tables.symbols),
            equations: row.equations.part(&self.tables.equations),
            plan: row.plan.part(&self.tables.plan),
        })
    }

    // How much the sheet holds.
    pub fn counts(&self) -> Counts
        ensures { Counted result (grammar_of self.now) }
    {
        let rules = &self.tables.rules;
        Counts {
            symbols: self.tables.symbols.len(),
            rules: rules.len(),
            sets: rules.iter().map(|row| row.equations.size()).sum(),
            instructions: rules.iter().map(|row| row.plan.size()).sum(),
        }
    }
}
