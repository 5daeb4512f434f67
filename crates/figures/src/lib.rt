// What controllers agree on: figures, each of a kind, and the codes that stand for them.
#![tactic(auto)]

pub mod figure;
pub mod order;
pub mod reading;
mod tank;
#[cfg(test)]
mod tests;
