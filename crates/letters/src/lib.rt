// The carrier that sends letters: reliable broadcast among the seats of a roster.
#![tactic(auto)]

pub mod letters;
#[cfg(test)]
mod tests;
