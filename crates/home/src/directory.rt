//! The directory of a block: who holds a copy, whether as its owner, and the request under way.

ghost use Rattle.std.specs.Prelude.{◌≡◌};
ghost use Rattle.home.specs.Directories.{begun, heard_round, view, asking, heard, replied, freed};
ghost use Rattle.home.specs.Sets.{is_empty};

use crate::request::Request;
use message::table::Table;

/// A set of processors, as presence bits by processor; what is no processor is in no set.
pub type Processors = Table<bool, 4>;

/// Whether no processor is in the set.
pub fn is_empty(processors: Processors) -> bool
    ensures { result ≡ is_empty processors }
{
    !processors.at.contains(&true)
}

/// A request whose holders are asked. `awaited` are not yet heard, `latest` is the greatest clock
/// among those that are.
#[derive(Clone, Copy, Debug, PartialEq, Eq)]
pub struct Round {
    pub request: Request,
    pub awaited: Processors,
    pub latest: u32,
}

#[derive(Clone, Copy, Debug, PartialEq, Eq)]
pub enum Phase {
    /// No request is under way.
    Free,
    /// Some of the holders have been asked and not all are heard.
    Gathering(Round),
    /// The reply is sent and not yet taken.
    Replied(Request),
}

/// Presence and the exclusive bit keep their meaning while a request is under way.
#[derive(Clone, Copy, Debug, PartialEq, Eq)]
pub struct Directory {
    pub holders: Processors,
    // A bit beside the presence bits: it falls alone where an owner keeps a shared copy.
    pub exclusive: bool,
    pub phase: Phase,
}

/// How a directory stands to a request.
#[derive(Clone, Copy, Debug, PartialEq, Eq)]
pub enum View {
    Idle,
    Shared,
    Exclusive,
    Busy,
}

impl Round {
    /// Nobody is heard yet.
    pub(crate) fn of(request: Request, asked: Processors) -> Round
        ensures { result ≡ begun request asked }
    {
        Round {
            request,
            awaited: asked,
            latest: 0,
        }
    }

    pub(crate) fn heard(self, processor: u32, clock: u32) -> Round
        ensures { result ≡ heard_round self processor clock }
    {
        Round {
            awaited: self.awaited.with(processor, false),
            latest: self.latest.max(clock),
            ..self
        }
    }
}

impl Directory {
    pub fn view(self) -> View
        ensures { result ≡ view self }
    {
        let Phase::Free = self.phase else {
            return View::Busy;
        };
        if is_empty(self.holders) {
            return View::Idle;
        }
        if self.exclusive {
            return View::Exclusive;
        }
        View::Shared
    }

    /// The request is taken, and these holders are asked.
    pub(crate) fn asking(self, request: Request, asked: Processors) -> Directory
        ensures { result ≡ asking self request asked }
    {
        Directory {
            phase: Phase::Gathering(Round::of(request, asked)),
            ..self
        }
    }

    /// The processor is heard: it holds no copy now, or after DOWN a shared one. `round` is what
    /// is under way then.
    pub(crate) fn heard(self, round: Round, processor: u32) -> Directory
        ensures { result ≡ heard self round processor }
    {
        let mut next = self;
        if !round.request.asks_down() {
            next.holders = self.holders.with(processor, false);
        }
        next.exclusive = false;
        next.phase = Phase::Gathering(round);
        next
    }

    /// The reply is sent: the requester holds what it was given.
    pub(crate) fn replied(self, request: Request) -> Directory
        ensures { result ≡ replied self request }
    {
        let mut next = self;
        if request.gives_copy() {
            next.holders = self.holders.with(request.requester, true);
        }
        if request.gives_ownership() {
            next.exclusive = true;
        }
        next.phase = Phase::Replied(request);
        next
    }

    /// The reply is taken.
    pub(crate) fn freed(self) -> Directory
        ensures { result ≡ freed self }
    {
        Directory {
            phase: Phase::Free,
            ..self
        }
    }
}
