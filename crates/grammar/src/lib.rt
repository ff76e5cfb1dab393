// What a sheet speaks of: symbols with their attributes, equations, plans; and the refusals of sheets.
#![tactic(auto)]

mod production;
mod read;
mod refusal;
mod rows;
mod terms;

pub use production::Production;
pub use read::{Spelled, read_list};
pub use refusal::{Layer, PlanRule, Refusal};
pub use rows::{Equation, EquationRow, SymbolRow};
pub use terms::{Argument, Attribute, Flow, Instruction};
