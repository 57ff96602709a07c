// What stands in a text: refusals 16, 17 and 18, and the power after a factor.
#![tactic(auto)]

pub mod checks;
pub mod exponent;
pub mod shape;
mod signs;
