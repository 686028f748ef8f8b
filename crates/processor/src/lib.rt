//! A processor node: what it does at each call and at each message, as values that touch nothing.

#![tactic(auto)]

pub mod calls;
pub mod laws;
pub mod line;
pub mod receive;
pub mod refusal;
pub mod slot;
pub mod state;
