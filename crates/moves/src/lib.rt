// Moves on a system of words: their log records, and how they are made.
#![tactic(auto)]

pub mod log;
pub mod make;
