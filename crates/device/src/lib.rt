//! Devices: what a device means, registers to build one from, and a window over any device.

#![tactic(auto)]

pub mod laws;
pub mod meaning;
pub mod registers;
pub mod window;
