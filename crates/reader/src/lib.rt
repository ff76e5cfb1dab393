// Sheets of grammar and plans: read, judged line by line, and kept.
#![tactic(auto)]

mod closing;
mod fault;
mod reading;
mod rows;
mod steps;
mod tables;

pub use fault::Fault;
pub use rows::Span;
pub use tables::Tables;
