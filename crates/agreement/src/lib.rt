// What every agreement is, and what holds over any run of one.
#![tactic(auto)]

pub mod agreement;
