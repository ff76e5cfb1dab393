// What nodes of a rule have in common.
ghost use Rattle.std.specs.Prelude.{◌≡◌, ◌≤◌, length, MatchOption};
ghost use Rattle.sheet.specs.Answers.{grammar_of};
ghost use Rattle.tour.specs.Rules.{rule};
ghost use Rattle.places.specs.Kinds.{Known};
ghost use Rattle.places.specs.Places.{arity};

use sheet::Sheet;

// The symbol of a node, the symbols of its children, and how many attributes it has.
#[derive(Clone, Copy)]
pub struct Kind<'a> {
    pub left: u16,
    pub right: &'a [u16],
    pub attributes: usize,
}

// The kind of the nodes of a rule, if there is such a rule.
pub fn kind_of(sheet: &Sheet, rule: usize) -> Option<Kind<'_>>
    ensures { MatchOption result (length (grammar_of sheet.now).rules ≤ rule) (λ k. Known (grammar_of sheet.now) rule k.left k.right.now k.attributes) }
{
    let production = sheet.rule(rule)?.production;
    Some(Kind {
        left: production.left,
        right: production.right,
        attributes: production.attributes(0).len(),
    })
}

// The left symbol of a rule; 0 where there is no such rule.
pub fn left_of(sheet: &Sheet, number: u16) -> u16
    ensures { result ≡ (rule (grammar_of sheet.now) number).left }
{
    kind_of(sheet, usize::from(number)).map_or(0, |kind| kind.left)
}

// How many right symbols a rule has; none where there is no such rule.
pub fn arity_of(sheet: &Sheet, number: u16) -> usize
    ensures value { result ≡ arity (grammar_of sheet.now) number }
    ensures few { result ≤ 4 }
{
    kind_of(sheet, usize::from(number)).map_or(0, |kind| kind.right.len())
}
