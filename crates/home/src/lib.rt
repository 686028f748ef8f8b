//! The home of one block: its words, its clock, and the directory of who holds a copy. A home is
//! woken by one message at a time and answers with a reaction; nothing is touched.

#![tactic(auto)]

pub mod directory;
pub mod laws;
pub mod machine;
pub mod plan;
mod react;
pub mod request;
