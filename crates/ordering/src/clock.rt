//! Clocks: a global number that passes what it hears, and a local one that counts operations.
//! `N` is the width of the numbers: 32 bits at rest, 64 where one may stand past the end.

ghost use Rattle.std.specs.Prelude.{◌≡◌, ◌+◌, ◌<◌, max, Option};
ghost use Rattle.ordering.specs.Clocks.{counted, passed, settled, settled_next, NumbersAreUsed};

/// Where global, local and sequence numbers end.
pub const END: u32 = 1_000_000_000;

/// What a node's operations are stamped by.
#[derive(Clone, Copy, Debug, PartialEq, Eq)]
pub struct Clock<N = u32> {
    pub global: N,
    pub local: N,
}

impl Clock {
    fn above(self, n: u32) -> u64
        ensures { result ≡ max self.global n + 1 }
    {
        u64::from(self.global.max(n)) + 1
    }

    /// The clock once an operation is counted.
    pub fn counted(self) -> Clock<u64>
        ensures { result ≡ counted self }
    {
        Clock {
            global: u64::from(self.global),
            local: u64::from(self.local) + 1,
        }
    }

    /// The clock once `n` is passed: above `n`, and above where it stood.
    pub fn passed(self, n: u32) -> Clock<u64>
        ensures value { result ≡ passed self n }
        ensures forward { self.global < result.global }
        ensures above { n < result.global }
    {
        Clock {
            global: self.above(n),
            local: 0,
        }
    }

    /// The clock once `n` is passed and then an operation counted.
    pub fn passed_and_counted(self, n: u32) -> Clock<u64>
        ensures { result ≡ counted (passed self n) }
    {
        Clock {
            global: self.above(n),
            local: 1,
        }
    }
}

/// The same clock in the wider numbers.
impl From<Clock> for Clock<u64> {
    ghost from_gives = { λ clock wide. wide ≡ clock };

    fn from(clock: Clock) -> Clock<u64> {
        Clock {
            global: u64::from(clock.global),
            local: u64::from(clock.local),
        }
    }
}

/// What has numbers that may stand past their end, and comes to rest where none does.
pub trait Settle: Copy {
    type Rest: Copy;

    ghost settled: { Self → Option Self.Rest };

    fn settled(self) -> Option<Self::Rest>
        ensures { result ≡ settled self };
}

impl Settle for Clock<u64> {
    type Rest = Clock;

    ghost settled = { settled };

    fn settled(self) -> Option<Clock> {
        let end = u64::from(END);
        if self.global > end || self.local > end {
            return None;
        }
        Some(Clock {
            global: self.global as u32,
            local: self.local as u32,
        })
    }
}

/// The number of a next operation at rest again. The operation of the last number may be done; the next then has none.
pub fn settled_next(sequence: u64) -> Option<u32>
    ensures { result ≡ settled_next sequence }
{
    if sequence > u64::from(END) + 1 {
        return None;
    }
    Some(sequence as u32)
}

/// An operation may have any number up to the end, and none above it.
pub fn numbers_are_used()
    ensures { NumbersAreUsed }
{}

#[cfg(test)]
mod tests {
    use super::*;

    #[test]
    fn passes_the_greater_number(rt: HostRuntime) {
        let clock: Clock = Clock {
            global: 3,
            local: 2,
        };
        assert_eq!(rt; clock.passed(5).global, 6);
        assert_eq!(rt; clock.passed(2).global, 4);
        assert_eq!(rt; clock.passed(2).local, 0);
    }

    #[test]
    fn the_end_itself_may_be_had(rt: HostRuntime) {
        let clock: Clock = Clock {
            global: END - 1,
            local: END,
        };
        assert!(rt; clock.passed(0).settled().is_some());
        assert!(rt; clock.passed(END).settled().is_none());
        assert!(rt; clock.counted().settled().is_none());
    }
}
