// What a program needs to read jobs from lines of text: words, numbers, and bytes in hex.
#![tactic(auto)]

pub mod hex;
pub mod line;
pub mod number;
pub mod numbers;
pub mod words;
