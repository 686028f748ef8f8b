//! The program's own board: which devices it has, what it writes for a script, and worked cases and scripts on it.

#![tactic(auto)]

pub mod laws;
pub mod program;
pub mod report;
