//! Reading text that stands in lines of tab-parted fields: any bytes, and no copy of them.

#![tactic(auto)]

mod bytes;
mod fields;
mod lines;
mod parts;

pub use bytes::{numbers_are_read_back, parse_number};
pub use fields::Fields;
pub use lines::{Lines, lines_are_read_back};
