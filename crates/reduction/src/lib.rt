// The calls reduce and test.
#![tactic(auto)]

pub mod answers;
pub mod reduce;
pub mod test;
