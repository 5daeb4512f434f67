// What the programs have in common: the call for help, and how they end.
#![tactic(auto)]

pub mod end;
pub mod help;
