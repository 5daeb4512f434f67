// The jobs of the letter tool: what a line asks for, and what is answered.
#![tactic(auto)]

pub mod answer;
pub mod job;
pub mod parse;
#[cfg(test)]
mod tests;
