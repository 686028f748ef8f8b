//! A board around two devices of any two kinds: its figures, the nodes that are no devices, and two bridges; and the
//! checks that stand before every call.

ghost use Rattle.std.specs.Prelude.{◌≡◌, ◌≤◌, true, Ok, nat_lt};
ghost use Rattle.coherence.specs.Steps.{check, argument};
ghost use Rattle.coherence.specs.declared.fault.BoardFault.TheVariants.{NotFit};
ghost use Rattle.coherence.specs.declared.fault.Fault.TheVariants as fault;

use bridge::state::Bridge;
use coherence::fault::{BoardFault, Fault};
use home::machine::Home;
use processor::state::Processor;

/// All of a board but its devices.
#[derive(Clone, Copy)]
pub struct Tables {
    // A board outside its figures is made all the same, so a flag and no `Option`.
    /// Whether the board was made within its figures.
    pub(crate) fit: bool,
    pub(crate) count: u32,
    // Fixed memory, so no `Vec`.
    /// The first `count` are on the board.
    pub(crate) processors: [Processor; 4],
    pub(crate) homes: [Home; 16],
}

// A call borrows the two lists beside the board, so these stay two parameters of every call.
/// A board; the messages that wait and the trail lie beside it, in memory that its user lends.
#[derive(Drop)]
pub struct Board<A, B> {
    pub(crate) tables: Tables,
    pub(crate) first: Bridge<A>,
    pub(crate) second: Bridge<B>,
    ghost few: { (tables.fit ≡ true → tables.count ≤ 4) },
}

/// An argument is below its end; `position` says which argument it is, from 1.
pub(crate) fn check_below(number: u32, end: u32, position: u32) -> Result<(), Fault>
    ensures { result ≡ check (nat_lt number end) (argument position) (Ok tt) }
{
    if number >= end {
        return Err(Fault::Board(BoardFault::Argument(position)));
    }
    Ok(())
}

impl<A, B> Board<A, B> {
    /// Whether the board was made within its figures; every call that follows checks it first.
    pub fn check_fit(&self) -> Result<(), Fault>
        ensures { result ≡ check self.now.tables.fit (fault.Board NotFit) (Ok tt) }
    {
        if !self.tables.fit {
            return Err(Fault::Board(BoardFault::NotFit));
        }
        Ok(())
    }
}
