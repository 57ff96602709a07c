// One record: its layout, its refusals, and what a call answers.
#![tactic(auto)]

pub mod answers;
pub mod record;
pub mod refusals;
