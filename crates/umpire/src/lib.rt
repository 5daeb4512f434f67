// The simplest agreement: an umpire whom all seats tell their code.
#![tactic(auto)]

#[cfg(test)]
mod tests;
pub mod umpire;
