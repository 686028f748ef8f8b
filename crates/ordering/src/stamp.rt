//! Stamps: where an operation stands among all operations of all nodes.

ghost use Rattle.std.specs.Prelude.{◌≡◌};
ghost use Rattle.ordering.specs.Stamps.{stamped, below, StrictTotalOrder};

use crate::clock::Clock;

/// Ordered by global number, then local number, then node.
#[derive(Clone, Copy, Debug, PartialEq, Eq, PartialOrd, Ord)]
pub struct Stamp {
    pub global: u64,
    pub local: u64,
    pub node: u32,
}

impl Stamp {
    /// The stamp of an operation that `node` did when its clock showed `clock`.
    pub fn of(clock: Clock<u64>, node: u32) -> Stamp
        ensures { result ≡ stamped clock node }
    {
        Stamp {
            global: clock.global,
            local: clock.local,
            node,
        }
    }

    /// The word of the rules for `<`.
    pub fn is_below(self, other: Stamp) -> bool
        ensures { result ≡ below self other }
    {
        self < other
    }
}

/// Stamps are in a strict total order: none is below itself, below is transitive, and two of
/// which neither is below the other are equal.
#[tactic(auto, using(crate::proofs::Total::strict_total_order))]
pub fn stamps_are_ordered()
    ensures { StrictTotalOrder }
{}

#[cfg(test)]
mod tests {
    use super::*;

    fn stamp(global: u64, local: u64, node: u32) -> Stamp {
        Stamp {
            global,
            local,
            node,
        }
    }

    #[test]
    fn global_then_local_then_node(rt: HostRuntime) {
        let low = stamp(2, 9, 3);
        let middle = stamp(3, 1, 0);
        let high = stamp(3, 1, 4);
        assert!(rt; low.is_below(middle) && middle.is_below(high) && low.is_below(high));
        assert!(rt; !high.is_below(middle) && !low.is_below(low));
    }
}
