//! Why a call is refused: the layer, the number and the place that a fault keeps on its way up.

ghost use Rattle.std.specs.Prelude.{◌≡◌};
ghost use Rattle.coherence.specs.Faults.{fault_layer, fault_number, fault_place};
ghost use Rattle.trail.specs.Faults as source;
ghost use Rattle.coherence.specs.declared.fault.BoardFault.TheVariants.{Argument, Refused};
ghost use Rattle.coherence.specs.declared.fault.Fault.TheVariants.{Device, Network, Board};

use bridge::fault::DeviceFault;
use processor::refusal::Refusal;
use trail::fault::SourceFault;

/// What forbids a call among the waiting messages.
#[derive(Clone, Copy, Debug, PartialEq, Eq)]
pub enum NetworkFault {
    /// An older message of the pair waits, at this place.
    OlderWaits(usize),
    /// The message at this place has no rule at its receiver.
    NoRule(usize),
    /// More messages would wait than there is room for: the room.
    MessagesFull(usize),
}

/// What forbids a call at the board, its processors or its trail.
#[derive(Clone, Copy, Debug, PartialEq, Eq)]
pub enum BoardFault {
    /// The board was made outside its figures.
    NotFit,
    /// An argument is outside its range: the first such, from 1.
    Argument(u32),
    /// A processor refuses.
    Refused(Refusal),
    /// The trail has no room for an entry: its room.
    TrailFull(usize),
    /// A number of this node would pass its end.
    NumberEnds(u32),
}

/// Where a call was refused.
#[derive(Clone, Copy, Debug, PartialEq, Eq)]
pub enum Layer {
    Device,
    Network,
    Board,
}

/// Why a call was refused. Nothing has changed then.
#[derive(Clone, Copy, Debug, PartialEq, Eq)]
pub enum Fault {
    /// A device's wish is not done.
    Device(DeviceFault),
    Network(NetworkFault),
    Board(BoardFault),
}

impl Fault {
    /// The layer that refused.
    pub fn layer(self) -> Layer
        ensures { result ≡ fault_layer self }
    {
        match self {
            Fault::Device(_) => Layer::Device,
            Fault::Network(_) => Layer::Network,
            Fault::Board(_) => Layer::Board,
        }
    }

    /// The number of the reason, from 1 to 16.
    pub fn number(self) -> u32
        ensures { result ≡ fault_number self }
    {
        match self {
            Fault::Device(fault) => fault.number(),
            Fault::Network(NetworkFault::OlderWaits(_)) => 9,
            Fault::Network(NetworkFault::NoRule(_)) => 10,
            Fault::Network(NetworkFault::MessagesFull(_)) => 14,
            Fault::Board(BoardFault::NotFit) => 1,
            Fault::Board(BoardFault::Argument(_)) => 2,
            Fault::Board(BoardFault::Refused(refusal)) => refusal.number(),
            Fault::Board(BoardFault::TrailFull(_)) => 15,
            Fault::Board(BoardFault::NumberEnds(_)) => 16,
        }
    }

    /// What the reason is about: a place, an argument, a block, a device, a node or a room, and 0 where there is none.
    pub fn place(self) -> usize
        ensures { result ≡ fault_place self }
    {
        match self {
            Fault::Device(fault) => fault.place() as usize,
            Fault::Network(NetworkFault::OlderWaits(place)) => place,
            Fault::Network(NetworkFault::NoRule(place)) => place,
            Fault::Network(NetworkFault::MessagesFull(capacity)) => capacity,
            Fault::Board(BoardFault::NotFit) => 0,
            Fault::Board(BoardFault::Argument(position)) => position as usize,
            Fault::Board(BoardFault::Refused(refusal)) => refusal.place() as usize,
            Fault::Board(BoardFault::TrailFull(capacity)) => capacity,
            Fault::Board(BoardFault::NumberEnds(node)) => node as usize,
        }
    }
}

impl From<DeviceFault> for Fault {
    ghost from_gives = { λ e r. r ≡ Device e };

    fn from(fault: DeviceFault) -> Fault {
        Fault::Device(fault)
    }
}

impl From<SourceFault> for Fault {
    ghost from_gives = { λ e r. r ≡ Board (Argument (source.fault_place e)) };

    fn from(fault: SourceFault) -> Fault {
        Fault::Board(BoardFault::Argument(fault.place()))
    }
}

impl From<NetworkFault> for Fault {
    ghost from_gives = { λ e r. r ≡ Network e };

    fn from(fault: NetworkFault) -> Fault {
        Fault::Network(fault)
    }
}

impl From<BoardFault> for Fault {
    ghost from_gives = { λ e r. r ≡ Board e };

    fn from(fault: BoardFault) -> Fault {
        Fault::Board(fault)
    }
}

impl From<Refusal> for Fault {
    ghost from_gives = { λ e r. r ≡ Board (Refused e) };

    fn from(refusal: Refusal) -> Fault {
        Fault::Board(BoardFault::Refused(refusal))
    }
}
