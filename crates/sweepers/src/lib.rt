//! Devices that sweep blocks and then interrupt a processor: the plate setter, which fetches, and the scanner, which
//! stores.

#![tactic(auto)]

pub mod laws;
pub mod plate_setter;
pub mod scanner;
mod sweep;
pub mod sweeper;
