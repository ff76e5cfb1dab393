// The plan line, which closes a rule.
ghost use Rattle.std.specs.Prelude.{◌≡◌, ◌≤◌, map, vec_len, vec_capacity};
ghost use Rattle.std.specs.Result.{result_err};
ghost use Rattle.words.specs.Left.{left};
ghost use Rattle.grammar.specs.Forms.{all_of, instruction_word};
ghost use Rattle.grammar.specs.Rows.{equation_of};
ghost use Rattle.reader.specs.PlanTable.{PlanRead};
ghost use Rattle.lines.specs.Faults.{plan_fault};
ghost use Rattle.reader.specs.Judgement.{on_line};
ghost use Rattle.lines.specs.Lines.{plan_in};
ghost use Rattle.reader.specs.Views.{state_of, open_scope, Stepped};

use super::rows::{Opened, RuleRow, Span};
use super::tables::Tables;
use grammar::{EquationRow, Instruction, Refusal, Spelled, SymbolRow};
use lines::check_plan;
use plans::{Group, require};
use words::Words;

// Adds the words of a plan to those that were read before, as long as there are at most 1,024. As in grammar's
// `read_list`, `fits` is kept until the end, since a word of another form is told before too many words. It is no
// `read_list`, since that fills a list of its own, and a plan goes behind others into the table of all plans.
fn read_plan(words: Words<'_>, plan: &mut Vec<Instruction>) -> Result<(), Refusal>
    requires { 1024 ≤ vec_capacity plan.old }
    ensures read { PlanRead result (all_of instruction_word (left words.entry)) plan.old.items plan.new.items }
    ensures grows { vec_len plan.old ≤ vec_len plan.new }
    ensures capacity { vec_capacity plan.new ≡ vec_capacity plan.old }
{
    let mut fits = require(plan.len() <= 1024, Refusal::Range);
    for placed in words {
        let instruction = Instruction::read(placed.word).ok_or(Refusal::LineForm)?;
        if plan.len() < 1024 {
            plan.push_reserved(instruction);
        } else {
            fits = Err(Refusal::Range);
        }
    }
    fits
}

// Whether the rule that is open may have that plan.
fn check_open<'a>(
    symbols: &'a [SymbolRow],
    open: &'a Opened,
    equations: &'a [EquationRow],
    plan: &'a [Instruction],
) -> Result<(), Refusal>
    ensures { result_err result ≡ plan_fault (open_scope symbols.now «open».now) (map equation_of equations.now) plan.now }
{
    check_plan(&Group {
        production: open.rule.production(symbols),
        equations,
        plan,
    })
}

impl Tables {
    pub(super) fn close_rule(&mut self, words: Words<'_>) -> Result<(), Refusal>
        ensures { Stepped result (on_line (state_of self.old) (plan_in (left words.entry))) self.new }
    {
        let open = self.opened.take().ok_or(Refusal::LineForm)?;
        let before = self.plan.len();
        read_plan(words, &mut self.plan)?;
        check_open(
            &self.symbols,
            &open,
            &self.equations[open.start..],
            &self.plan[before..],
        )?;
        let Opened { rule, start } = open;
        let equations = Span {
            start,
            end: self.equations.len(),
        };
        let plan = Span {
            start: before,
            end: self.plan.len(),
        };
        self.rules.push_reserved(RuleRow {
            rule,
            equations,
            plan,
        });
        Ok(())
    }
}
