//! What a bridge will do, decided before anything is touched: its new numbers and its deed.

ghost use Rattle.std.specs.Prelude.{◌≡◌};
ghost use Rattle.bridge.specs.Plans.{sends, enters, settled_plan};

use message::message::Message;
use ordering::clock::{Clock, Settle, settled_next};
use ordering::operation::Words;

// The party is a node's number, as in an entry.
/// An operation at one of the device's words: who asked for it, its number there, and the word.
#[derive(Clone, Copy, Debug, PartialEq, Eq)]
pub struct WordAccess {
    pub party: u32,
    pub sequence: u32,
    pub place: u32,
}

/// What is done to the device, sent and entered: the first four are wishes of the device, the others answer a message.
#[derive(Clone, Copy, Debug, PartialEq, Eq)]
pub enum Deed {
    /// Its own LDio.
    Load(WordAccess),
    /// Its own STio, of this word.
    Store(WordAccess, u32),
    /// Its INT.
    Interrupt(Message),
    /// Its LDblk or STblk is asked for.
    Request(Message),
    /// A processor's LDio, which Rio asks for.
    Read(WordAccess),
    /// A processor's STio, which Wio asks for.
    Write(WordAccess, u32),
    /// The words of a block came from its home.
    Land { home: u32, block: u32, words: Words },
    /// The home stored a block.
    Finish { home: u32, block: u32 },
    /// A refused request goes out again.
    Resend(Message),
}

impl Deed {
    /// How many messages it sends.
    pub fn sends(self) -> usize
        ensures { result ≡ sends self }
    {
        match self {
            Deed::Load(_) | Deed::Store(_, _) | Deed::Write(_, _) => 0,
            _ => 1,
        }
    }

    /// Whether it does an operation, which the trail gets.
    pub fn enters(self) -> bool
        ensures { result ≡ enters self }
    {
        matches!(
            self,
            Deed::Load(_) | Deed::Store(_, _) | Deed::Read(_) | Deed::Write(_, _)
        )
    }
}

/// `N` is the width of its numbers: 64 bits as decided, where one may stand past its end, and 32 once they are within.
#[derive(Clone, Copy, Debug, PartialEq, Eq)]
pub struct Plan<N = u32> {
    pub clock: Clock<N>,
    pub sequence: N,
    pub deed: Deed,
}

impl Settle for Plan<u64> {
    type Rest = Plan;

    ghost settled = { settled_plan };

    fn settled(self) -> Option<Plan> {
        Some(Plan {
            clock: self.clock.settled()?,
            sequence: settled_next(self.sequence)?,
            deed: self.deed,
        })
    }
}
