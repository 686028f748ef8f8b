//! What is asked of a trail: where a word that was read came from, and the sum of all values.

#![tactic(auto)]

pub mod laws;
pub mod source;
pub mod sum;
