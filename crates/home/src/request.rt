//! A request that a home has taken: how it asks its holders for it, what it replies, what it does.

ghost use Rattle.std.specs.Prelude.{◌≡◌};
ghost use Rattle.home.specs.Requests.{request_of, asks_down, asks_by, reply_kind, carries_words, gives_copy};
ghost use Rattle.home.specs.Requests.{gives_ownership, operation_for};
ghost use Rattle.home.specs.Reactions.{entry_for, reply, nack};

use message::block::Block;
use message::kind::Kind;
use message::message::Message;
use ordering::clock::Clock;
use ordering::operation::{Operation, Words};
use ordering::stamp::Stamp;
use trail::entry::Entry;

/// What stays of the message that asked; the requester is a node.
#[derive(Clone, Copy, Debug, PartialEq, Eq)]
pub struct Request {
    pub kind: Kind,
    pub requester: u32,
    pub words: Words,
    pub clock: u32,
    pub sequence: u32,
}

impl From<Message<u32>> for Request {
    ghost from_gives = { λ message request. request ≡ request_of message };

    fn from(message: Message<u32>) -> Request {
        Request {
            kind: message.kind,
            requester: message.sender,
            words: message.words,
            clock: message.clock,
            sequence: message.sequence,
        }
    }
}

impl Request {
    /// Whether the owner may keep a shared copy.
    pub(crate) fn asks_down(self) -> bool
        ensures { result ≡ asks_down self.kind }
    {
        matches!(self.kind, Kind::Gets | Kind::Rblk)
    }

    /// By which message the holders are asked.
    pub(crate) fn asks_by(self) -> Kind
        ensures { result ≡ asks_by self.kind }
    {
        if self.asks_down() {
            return Kind::Down;
        }
        Kind::Inv
    }

    pub(crate) fn reply_kind(self) -> Kind
        ensures { result ≡ reply_kind self.kind }
    {
        match self.kind {
            Kind::Gets => Kind::SData,
            Kind::Getx => Kind::XData,
            Kind::Upg => Kind::Grant,
            Kind::Rblk => Kind::Words,
            _ => Kind::Done,
        }
    }

    /// Whether the reply has the home's words.
    pub(crate) fn carries_words(self) -> bool
        ensures { result ≡ carries_words self.kind }
    {
        matches!(self.kind, Kind::Gets | Kind::Getx | Kind::Rblk)
    }

    /// Whether the requester is the owner after the reply.
    pub(crate) fn gives_ownership(self) -> bool
        ensures { result ≡ gives_ownership self.kind }
    {
        matches!(self.kind, Kind::Getx | Kind::Upg)
    }

    /// Whether the requester holds a copy after the reply.
    pub(crate) fn gives_copy(self) -> bool
        ensures { result ≡ gives_copy self.kind }
    {
        matches!(self.kind, Kind::Gets) || self.gives_ownership()
    }

    /// What the home itself does for a device.
    pub(crate) fn operation(self) -> Option<Operation>
        ensures { result ≡ operation_for self.kind }
    {
        match self.kind {
            Kind::Rblk => Some(Operation::LdBlk),
            Kind::Wblk => Some(Operation::StBlk),
            _ => None,
        }
    }

    /// The operation that the home does for it, at `clock`.
    pub(crate) fn entry(self, block: Block, words: Words, clock: Clock<u64>) -> Option<Entry>
        ensures { result ≡ entry_for block self words clock }
    {
        Some(Entry {
            party: self.requester,
            sequence: self.sequence,
            operation: self.operation()?,
            space: 0,
            place: block.number(),
            values: words,
            stamp: Stamp::of(clock, block.home()),
        })
    }

    /// The reply to it, with the home's words as they are then and its clock.
    pub(crate) fn reply(self, block: Block, words: Words, clock: u64) -> Message
        ensures { result ≡ reply block self words clock }
    {
        let mut reply = Message::plain(
            self.reply_kind(),
            block.home(),
            self.requester,
            block.number(),
        );
        if self.carries_words() {
            reply.words = words;
        }
        reply.clock = clock;
        reply
    }

    /// The request goes back as it came.
    pub(crate) fn nack(self, block: Block) -> Message
        ensures { result ≡ nack block self }
    {
        Message {
            words: self.words,
            clock: u64::from(self.clock),
            sequence: self.sequence,
            refused: Some(self.kind),
            ..Message::plain(Kind::Nack, block.home(), self.requester, block.number())
        }
    }
}
