// Reliable broadcast: what a sound seat does on each letter. That the rules keep their promises is proved here once, for every carrier of letters.
#![tactic(auto)]

pub mod cell;
pub mod letter;
pub mod rules;
