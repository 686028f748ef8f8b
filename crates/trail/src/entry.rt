//! An entry of the trail: one operation that was done.

use list::Record;
use ordering::operation::{Operation, Words};
use ordering::stamp::Stamp;

// A trail may name parties, spaces and places that no board has, so these are numbers.
/// Word operations use the first value; the others are 0.
#[derive(Clone, Copy, Debug, PartialEq, Eq)]
pub struct Entry {
    pub party: u32,
    pub sequence: u32,
    pub operation: Operation,
    pub space: u32,
    pub place: u32,
    pub values: Words,
    pub stamp: Stamp,
}

impl Entry {
    /// Fills memory in which no entry stands yet.
    pub const NONE: Entry = Entry {
        party: 0,
        sequence: 0,
        operation: Operation::Ld,
        space: 0,
        place: 0,
        values: Words::ZERO,
        stamp: Stamp {
            global: 0,
            local: 0,
            node: 0,
        },
    };
}

impl Record for Entry {
    const MOST: usize = 4096;

    ghost MOST = { 4096 };
}
