// Systems of records: their tests, and their words while a call runs, one to a slot.
#![tactic(auto)]

pub mod checks;
pub mod system;
