//! A bridge's state. `N` is the width of its numbers: 32 bits at rest.

ghost use Rattle.std.specs.Prelude.{◌≡◌};
ghost use Rattle.bridge.specs.States.{made};

use message::table::{Requests, Table};
use ordering::clock::Clock;

#[derive(Drop)]
pub struct Bridge<D, N = u32> {
    pub clock: Clock<N>,
    /// The number of the device's next operation.
    pub sequence: N,
    pub requests: Requests,
    pub device: D,
}

impl<D> Bridge<D> {
    /// A device with nothing under way, whose clock starts at `clock`.
    pub fn new(clock: u32, device: D) -> Bridge<D>
        ensures { result ≡ made clock device }
    {
        let clock = Clock {
            global: clock,
            local: 0,
        };
        Bridge {
            clock,
            sequence: 0,
            requests: Table::blank(),
            device,
        }
    }
}
