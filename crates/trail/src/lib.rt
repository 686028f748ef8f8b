//! The trail: every operation that was done, the addresses that it went to, and what the source of a read is.

#![tactic(auto)]

pub mod address;
pub mod entry;
pub mod fault;
pub mod laws;
