// Scenarios as text: what a line asks for, and the plan that its acts make.
#![tactic(auto)]

pub mod command;
pub mod line;
pub mod parse;
pub mod plan;
#[cfg(test)]
mod tests;
