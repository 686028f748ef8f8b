//! Lamport clocks and stamps, the operations that they number, and the order that a party keeps.

#![tactic(auto)]

pub mod clock;
pub mod operation;
pub mod order;
pub mod stamp;
