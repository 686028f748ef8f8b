//! A sweep: blocks in turn from a first one, as many as were asked for, and then an interrupt.

ghost use Rattle.std.specs.Prelude.{◌≡◌};
ghost use Rattle.sweepers.specs.Sweeps.{commanded, advanced, stage_of};

/// A sweep that was started, and how many of its blocks were accepted.
#[derive(Clone, Copy, Debug, PartialEq, Eq)]
pub struct Sweep {
    first: u32,
    count: u32,
    position: u32,
}

/// What a sweep is at.
#[derive(Clone, Copy, Debug, PartialEq, Eq)]
pub enum Stage {
    Block(u32),
    Interrupt,
}

impl Sweep {
    /// The command that starts a sweep; any other stops it.
    pub const START: u32 = 1;

    /// The sweep of `count` blocks from `first`, if the command starts one.
    pub fn commanded(command: u32, first: u32, count: u32) -> Option<Sweep>
        ensures { result ≡ commanded command first count }
    {
        let started = Sweep {
            first,
            count,
            position: 0,
        };
        (command == Sweep::START).then_some(started)
    }

    /// The block that is next, or the interrupt after the last. Block numbers wrap at the end of 32 bits.
    pub fn stage(self) -> Stage
        ensures { result ≡ stage_of self }
    {
        if self.position < self.count {
            return Stage::Block(self.first.wrapping_add(self.position));
        }
        Stage::Interrupt
    }

    /// The sweep once what it is at was accepted; none after the interrupt.
    pub fn advanced(self) -> Option<Sweep>
        ensures { result ≡ advanced self }
    {
        if self.position < self.count {
            return Some(Sweep {
                position: self.position + 1,
                ..self
            });
        }
        None
    }
}
