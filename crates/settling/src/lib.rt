// The reduction's rules: how a seat settles, by what it holds, which codes count, and comes to a bit and a decision. That seats who keep
// them agree is proved here once, over the meaning of any carrier and any agreement below.
#![tactic(auto)]

pub mod due;
pub mod holdings;
pub mod lead;
pub mod record;
pub mod row;
pub mod settle;
