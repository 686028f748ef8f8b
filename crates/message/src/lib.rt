//! Messages between nodes, and what a node's reaction sends, records and answers.

#![tactic(auto)]

pub mod block;
pub mod figures;
pub mod form;
pub mod kind;
pub mod laws;
pub mod message;
pub mod node;
pub mod pair;
pub mod reaction;
pub mod table;
