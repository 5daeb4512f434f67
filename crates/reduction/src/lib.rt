// An agreement on any code, made of a carrier and of an agreement on yes or no.
#![tactic(auto)]

pub mod reduction;
mod table;
