// Who takes part, why a call is denied, what a move is and what a decision is.
#![tactic(auto)]

pub mod decision;
pub mod denial;
pub mod moves;
pub mod roster;
pub mod size;
#[cfg(test)]
mod tests;
pub mod votes;
