// The calls that run a day.
#![tactic(auto)]

mod tables;
mod ticket;
