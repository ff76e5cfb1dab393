// One line after another goes into the tables, or is refused.
ghost use Rattle.std.specs.Prelude.{◌≡◌, not, length, is_some, IfOk};
ghost use Rattle.std.specs.Result.{result_err};
ghost use Rattle.words.specs.Left.{left};
ghost use Rattle.lines.specs.Lines.{symbol_in, rule_in, set_in};
ghost use Rattle.reader.specs.Steps.{nothing, is_empty, allowed, fault_of};
ghost use Rattle.lines.specs.LineKinds.Line.{set_line};
ghost use Rattle.lines.specs.Read.{set_of};
ghost use Rattle.reader.specs.Judgement.{on_line};
ghost use Rattle.reader.specs.Views.{state_of, Stepped};

use super::rows::Opened;
use super::tables::Tables;
use grammar::{EquationRow, Refusal};
use lines::{Key, SetWords, check_equation, check_rule, check_symbol, equation, rule, symbol};
use plans::require;
use std::alloc::{AllocError, Global};
use words::Words;

impl Tables {
    pub fn new(heap: Global) -> Result<Tables, AllocError>
        ensures { IfOk result (λ t. state_of t ≡ nothing) }
    {
        let symbols = Vec::with_capacity(heap, 32)?;
        let rules = Vec::with_capacity(heap, 64)?;
        let equations = Vec::with_capacity(heap, 512)?;
        let plan = Vec::with_capacity(heap, 1024)?;
        Ok(Tables {
            symbols,
            rules,
            equations,
            plan,
            opened: None,
        })
    }

    pub fn clear(&mut self)
        ensures { state_of self.new ≡ nothing }
    {
        self.symbols.clear();
        self.rules.clear();
        self.equations.clear();
        self.plan.clear();
        self.opened = None;
    }

    fn symbol_count(&self) -> usize
        ensures { result ≡ length (state_of self.now).symbols }
    {
        self.symbols.len()
    }

    fn rule_count(&self) -> usize
        ensures { result ≡ length (state_of self.now).rules }
    {
        self.rules.len()
    }

    fn has_symbols(&self) -> bool
        ensures { result ≡ not (is_empty (state_of self.now).symbols) }
    {
        !self.symbols.is_empty()
    }

    pub(super) fn has_rules(&self) -> bool
        ensures { result ≡ not (is_empty (state_of self.now).rules) }
    {
        !self.rules.is_empty()
    }

    pub(super) fn is_open(&self) -> bool
        ensures { result ≡ is_some (state_of self.now).opened }
    {
        self.opened.is_some()
    }

    // Whether a line of that kind may come next.
    pub(super) fn allows(&self, key: Key) -> bool
        ensures { result ≡ allowed (state_of self.now) key }
    {
        match key {
            Key::OfSymbol => !self.has_rules() && !self.is_open(),
            Key::OfRule => self.has_symbols() && !self.is_open(),
            Key::OfSet | Key::OfPlan => self.is_open(),
        }
    }

    pub(super) fn add_symbol(&mut self, words: Words<'_>) -> Result<(), Refusal>
        ensures { Stepped result (on_line (state_of self.old) (symbol_in (left words.entry))) self.new }
    {
        let row = symbol(words)?;
        check_symbol(&self.symbols, &row)?;
        self.symbols.push_reserved(row);
        Ok(())
    }

    pub(super) fn open_rule(&mut self, words: Words<'_>) -> Result<(), Refusal>
        ensures { Stepped result (on_line (state_of self.old) (rule_in (left words.entry))) self.new }
    {
        let rule = rule(words)?;
        check_rule(self.symbol_count(), self.rule_count(), &rule)?;
        self.opened = Some(Opened {
            rule,
            start: self.equations.len(),
        });
        Ok(())
    }

    // The function of an equation that comes next, if the equation may come.
    fn check_set(&self, set: &SetWords) -> Result<u8, Refusal>
        ensures fault { result_err result ≡ fault_of (state_of self.now) (set_line (set_of set.now)) }
        ensures function { IfOk result (λ f. f ≡ set.now.function) }
    {
        let open = self.opened.as_ref().ok_or(Refusal::LineForm)?;
        let function = u8::try_from(set.function).map_err(|_| Refusal::Range)?;
        require(self.equations.len() < 512, Refusal::Range)?;
        let production = open.rule.production(&self.symbols);
        check_equation(production, &self.equations[open.start..], set)?;
        Ok(function)
    }

    pub(super) fn add_equation(&mut self, words: Words<'_>) -> Result<(), Refusal>
        ensures { Stepped result (on_line (state_of self.old) (set_in (left words.entry))) self.new }
    {
        let set = equation(words)?;
        let function = self.check_set(&set)?;
        let SetWords {
            occurrence,
            attribute,
            arguments,
            ..
        } = set;
        self.equations.push_reserved(EquationRow {
            occurrence,
            attribute,
            function,
            arguments,
        });
        Ok(())
    }
}
