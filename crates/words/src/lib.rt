// Words of bytes: the inverse of a letter, what cancels between two words, and freely reduced words with their products; and lists of bytes.
#![tactic(auto)]

pub mod bytes;
pub mod cancel;
pub mod free_reduction;
pub mod letters;
pub mod product;
pub mod word;
pub mod writer;
