// Tests of the blocks.
#![tactic(auto)]

#[cfg(test)]
mod tests;
