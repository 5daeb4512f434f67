// Letters as bytes: what a letter is, how it is written and how it is read.
#![tactic(auto)]

pub mod field;
pub mod letter;
pub mod reader;
#[cfg(test)]
mod tests;
pub mod writer;
