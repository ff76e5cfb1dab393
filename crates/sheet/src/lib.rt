// Sheets of grammar and plans: what was accepted, or nothing.
#![tactic(auto)]

mod counts;
mod kept;
mod laws;
mod looks;
mod sheets;

pub use counts::Counts;
pub use kept::Sheet;
pub use laws::{acceptance_stands, worked_sheets_stand};
pub use plans::Group;
pub use reader::Fault;
