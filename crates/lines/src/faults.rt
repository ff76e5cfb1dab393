// What is wrong with a line, by the words that it says and what stands before it.
ghost use Rattle.std.specs.Prelude.{◌≡◌, not, ◌||◌, [], ◌∷◌, map, nat_lt};
ghost use Rattle.std.specs.Result.{result_err};
ghost use Rattle.grammar.specs.Rows.{symbol_of, equation_of};
ghost use Rattle.grammar.specs.Scopes.{scope_of, defines, attributes_at, argument_there, argument_taken, instruction_there};
ghost use Rattle.grammar.specs.Tests.{every, every_below};
ghost use Rattle.plans.specs.Groups.{group_scope, group_equations, group_plan};
ghost use Rattle.lines.specs.Faults.{between1, complete, has_target, plan_fault, right_visit, rule_fault, set_fault, starts, symbol_fault, synthesizes};
ghost use Rattle.lines.specs.Read.{set_of};

use super::says::{RuleSymbols, SetWords};
use grammar::{Argument, EquationRow, Flow, Instruction, Production, Refusal, SymbolRow};
use plans::{Group, require};

fn synthesized(symbol: &SymbolRow) -> bool
    ensures { result ≡ every synthesizes (symbol_of symbol.now).attributes }
{
    symbol
        .attributes
        .as_slice()
        .iter()
        .all(|x| x.flow == Flow::Synthesized)
}

// Only the first symbol is the start: it has one visit, and no attribute from above.
fn starts(symbols: &[SymbolRow], symbol: &SymbolRow) -> bool
    ensures { result ≡ starts (map symbol_of symbols.now) (symbol_of symbol.now).visits (symbol_of symbol.now).attributes }
{
    !symbols.is_empty() || (symbol.visits == 1 && synthesized(symbol))
}

// Whether the visit of each attribute is one of its symbol's.
fn visits_there(symbol: &SymbolRow) -> bool
    ensures { result ≡ every (λ x. between1 (symbol_of symbol.now).visits x.visit) (symbol_of symbol.now).attributes }
{
    symbol
        .attributes
        .as_slice()
        .iter()
        .all(|x| (1..=symbol.visits).contains(&x.visit))
}

// Whether a symbol may come behind others.
pub fn check_symbol(symbols: &[SymbolRow], symbol: &SymbolRow) -> Result<(), Refusal>
    ensures { result_err result ≡ symbol_fault (map symbol_of symbols.now) (symbol_of symbol.now).visits (symbol_of symbol.now).attributes }
{
    let counted = (1..=4).contains(&symbol.visits) && symbols.len() < 32;
    require(counted, Refusal::Range)?;
    require(visits_there(symbol), Refusal::Absent)?;
    require(starts(symbols, symbol), Refusal::Start)
}

fn symbols_there(count: usize, row: &RuleSymbols) -> bool
    ensures { result ≡ every (λ x. nat_lt x count) (row.now.left ∷ row.now.right.items) }
{
    usize::from(row.left) < count && row.right.as_slice().iter().all(|x| usize::from(*x) < count)
}

// Whether a rule may come, where there are so many symbols and rules before it.
pub fn check_rule(symbols: usize, rules: usize, row: &RuleSymbols) -> Result<(), Refusal>
    ensures { result_err result ≡ rule_fault symbols rules row.now.left row.now.right.items }
{
    require(rules < 64, Refusal::Range)?;
    require(symbols_there(symbols, row), Refusal::Absent)
}

fn has_target(equations: &[EquationRow], occurrence: usize, attribute: usize) -> bool
    ensures { result ≡ has_target (map equation_of equations.now) occurrence attribute }
{
    equations.iter().any(|e| e.targets(occurrence, attribute))
}

// This, the next and `instructions_there` ask each another test: one function for them would take the test as a closure,
// and have to require that the test may be called and speak of its answers, where each clause here names the test.
fn arguments_there(production: Production<'_>, arguments: &[Argument]) -> bool
    ensures { result ≡ every (argument_there (scope_of production.entry)) arguments.now }
{
    arguments.iter().all(|x| production.argument_there(*x))
}

fn arguments_taken(production: Production<'_>, arguments: &[Argument]) -> bool
    ensures { result ≡ every (argument_taken (scope_of production.entry)) arguments.now }
{
    arguments.iter().all(|x| production.argument_taken(*x))
}

// Whether an equation may join a rule that has some already. They come with the rule as two parameters and not as a
// `Group`, since the rule has no plan yet.
pub fn check_equation(
    production: Production<'_>,
    equations: &[EquationRow],
    set: &SetWords,
) -> Result<(), Refusal>
    ensures { result_err result ≡ set_fault (scope_of production.entry) (map equation_of equations.now) (set_of set.now) }
{
    let arguments = set.arguments.as_slice();
    let occurrence = usize::from(set.occurrence);
    let attribute = usize::from(set.attribute);
    let there = production.attribute(occurrence, attribute).is_some();
    require(
        there && arguments_there(production, arguments),
        Refusal::Absent,
    )?;
    let defines = production.defines(occurrence, attribute);
    require(
        defines && !has_target(equations, occurrence, attribute),
        Refusal::Target,
    )?;
    require(arguments_taken(production, arguments), Refusal::BadArgument)
}

// Whether each attribute of an occurrence that the rule defines has an equation. A method of `Production` for this and
// the like test of plans would take the test of an attribute as a closure, require that it may be called, and speak of
// its answers.
fn complete_at(group: &Group<'_>, occurrence: usize) -> bool
    ensures { result ≡ every_below (λ a. not (defines (group_scope group.now) occurrence a) || has_target (group_equations group.now) occurrence a) (attributes_at (group_scope group.now) occurrence) }
{
    (0..group.production.attributes(occurrence).len()).all(|a| {
        !group.production.defines(occurrence, a) || has_target(group.equations, occurrence, a)
    })
}

// Whether each attribute that the rule defines has an equation.
fn complete(group: &Group<'_>) -> bool
    ensures { result ≡ complete (group_scope group.now) (group_equations group.now) }
{
    (0..group.production.right.len() + 1).all(|o| complete_at(group, o))
}

// Only right occurrences are visited.
fn visits_right(plan: &[Instruction]) -> bool
    ensures { result ≡ every right_visit plan.now }
{
    plan.iter().all(|x| !matches!(*x, Instruction::Visit(0, _)))
}

fn instructions_there(production: Production<'_>, plan: &[Instruction]) -> bool
    ensures { result ≡ every (instruction_there (scope_of production.entry)) plan.now }
{
    plan.iter().all(|x| production.instruction_there(*x))
}

// Whether a rule may have that plan.
pub fn check_plan(group: &Group<'_>) -> Result<(), Refusal>
    ensures { result_err result ≡ plan_fault (group_scope group.now) (group_equations group.now) (group_plan group.now) }
{
    let production = group.production;
    require(visits_right(group.plan), Refusal::Range)?;
    require(instructions_there(production, group.plan), Refusal::Absent)?;
    require(complete(group), Refusal::Target)?;
    group.check().map_err(Refusal::Plan)
}
