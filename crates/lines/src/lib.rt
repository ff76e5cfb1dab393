// The lines of a sheet: what their words say, and what can be wrong with it.
#![tactic(auto)]

mod faults;
mod says;

pub use faults::{check_equation, check_plan, check_rule, check_symbol};
pub use says::{Key, RuleSymbols, SetWords, equation, rule, symbol};
