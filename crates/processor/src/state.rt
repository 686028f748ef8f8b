//! A processor's state. `N` is the width of its numbers: 32 bits at rest, 64 in a reaction, where
//! one may stand past its end.

ghost use Rattle.std.specs.Prelude.{◌≡◌};
ghost use Rattle.processor.specs.States.{made, settled_processor};

use crate::line::Lines;
use crate::slot::Slots;
use message::table::{Requests, Table};
use ordering::clock::{Clock, Settle, settled_next};

#[derive(Clone, Copy, Debug, PartialEq, Eq)]
pub struct Processor<N = u32> {
    pub clock: Clock<N>,
    /// The number of its next operation.
    pub sequence: N,
    pub lines: Lines,
    pub requests: Requests,
    pub slots: Slots,
    /// The latest interrupt word that was not polled.
    pub register: Option<u32>,
}

impl Processor {
    /// A processor that holds nothing, whose clock starts at `clock`.
    pub fn new(clock: u32) -> Processor
        ensures { result ≡ made clock }
    {
        Processor {
            clock: Clock {
                global: clock,
                local: 0,
            },
            sequence: 0,
            lines: Table::blank(),
            requests: Table::blank(),
            slots: Table::blank(),
            register: None,
        }
    }
}

/// The same processor in the wider numbers.
impl From<Processor> for Processor<u64> {
    ghost from_gives = { λ processor wide. wide ≡ processor };

    fn from(processor: Processor) -> Processor<u64> {
        Processor {
            clock: processor.clock.into(),
            sequence: u64::from(processor.sequence),
            lines: processor.lines,
            requests: processor.requests,
            slots: processor.slots,
            register: processor.register,
        }
    }
}

impl Settle for Processor<u64> {
    type Rest = Processor;

    ghost settled = { settled_processor };

    fn settled(self) -> Option<Processor> {
        Some(Processor {
            clock: self.clock.settled()?,
            sequence: settled_next(self.sequence)?,
            lines: self.lines,
            requests: self.requests,
            slots: self.slots,
            register: self.register,
        })
    }
}
