// The tables of a sheet. Room for the largest sheet is reserved when they are made, so that nothing read later can
// fail for want of memory.
ghost use Rattle.std.specs.Prelude.{◌≡◌, ◌≤◌, true, vec_len, vec_capacity};
ghost use Rattle.reader.specs.Spans.{open_few, spans_fit};

use super::rows::{Opened, RuleRow};
use grammar::{EquationRow, Instruction, SymbolRow};

#[derive(Drop)]
pub struct Tables {
    pub symbols: Vec<SymbolRow>,
    pub rules: Vec<RuleRow>,
    pub equations: Vec<EquationRow>,
    pub plan: Vec<Instruction>,
    pub opened: Option<Opened>,
    ghost symbol_room: { 32 ≤ vec_capacity symbols },
    ghost rule_room: { 64 ≤ vec_capacity rules },
    ghost equation_room: { 512 ≤ vec_capacity equations },
    ghost plan_room: { 1024 ≤ vec_capacity plan },
    ghost turn: { open_few (vec_len rules) opened ≡ true },
    ghost spans: { spans_fit (vec_len equations) (vec_len plan) rules.items opened ≡ true },
}
