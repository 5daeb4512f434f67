// The simplest carrier: a board that all seats write on.
#![tactic(auto)]

pub mod board;
#[cfg(test)]
mod tests;
