//! The raster board: its processors, homes and two devices of any two kinds, and the calls that are made on it.
//! Every call does what the definition of a step says, and goes on with the run that its board was reached in; every
//! run keeps the order promise.

#![tactic(auto)]

pub mod board;
mod bridges;
mod calls;
mod commit;
mod deliveries;
mod figures;
mod making;
mod post;
pub mod run;
mod steps;
pub mod ticket;
