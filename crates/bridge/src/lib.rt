//! A device node around any device. What it will do is decided without touching anything; once all
//! fits, it is performed, and only then is the device told.

#![tactic(auto)]

pub mod act;
pub mod fault;
pub mod laws;
pub mod perform;
pub mod plan;
pub mod receive;
pub mod state;
