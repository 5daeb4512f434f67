// What every carrier of messages is, and what holds over any run of one.
#![tactic(auto)]

pub mod carrier;
pub mod history;
pub mod run;
pub mod slot;
