//! Scripts: the board's calls as lines of text, and what each line comes to.

#![tactic(auto)]

pub mod fault;
pub mod laws;
pub mod line;
pub mod outcome;
pub mod play;
pub mod reader;
