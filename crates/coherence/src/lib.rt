//! The board as a whole: its calls, its faults, and what every run of calls keeps.

#![tactic(auto)]

pub mod call;
pub mod fault;
pub mod promise;
