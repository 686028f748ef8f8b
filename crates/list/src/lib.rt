//! One bounded list for every kind of record, over memory that its user lends.

#![tactic(auto)]

mod storage;

pub use storage::{Full, List, Record};
