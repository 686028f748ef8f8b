//! What a processor does when a message reaches it, or none where there is no rule. The fields that a
//! kind leaves empty, and who may send it, are not looked at here. `node` is the processor's own number.

ghost use Rattle.std.specs.Prelude.{◌≡◌, IfSome, None};
ghost use Rattle.ordering.specs.Words.{first_word};
ghost use Rattle.processor.specs.Receive.{giving_way, invalidated, downgraded, taking_line, taking, filled, granted};
ghost use Rattle.processor.specs.Receive.{done, nacked, interrupted, fetched, fetched_from, receive};

use crate::line::Line;
use crate::slot::Slot;
use crate::state::Processor;
use message::kind::Kind;
use message::message::Message;
use message::node::Node;
use message::reaction::Reaction;
use ordering::operation::{Operation, Words};
use ordering::stamp::Stamp;
use trail::entry::Entry;

/// The reaction to a message, or none where there is no rule.
pub type Outcome = Option<Reaction<Processor<u64>>>;

fn first_word(words: Words) -> u32
    ensures { result ≡ first_word words }
{
    words.at[0]
}

impl Processor {
    // Passes its own global, so that what comes after the ACK is above all that it did on the line.
    // The ACK has the words of a line that was owned.
    fn giving_way(
        self,
        node: u32,
        message: Message<u32>,
        line: Line,
        owned: Option<Words>,
    ) -> Reaction<Processor<u64>>
        ensures { result ≡ giving_way self node message line owned }
    {
        let clock = self.clock.passed(self.clock.global);
        let next = Processor {
            clock,
            lines: self.lines.with(message.place, line),
            ..self.into()
        };
        let acknowledgement = Message {
            words: owned.unwrap_or(Words::ZERO),
            clock: clock.global,
            exclusive: owned.is_some(),
            ..Message::plain(Kind::Ack, node, message.sender, message.place)
        };
        Reaction::sending(next, acknowledgement)
    }

    // INV.
    fn invalidated(self, node: u32, message: Message<u32>) -> Outcome
        ensures { result ≡ invalidated self node message }
    {
        let line = self.lines.get(message.place);
        if line == Line::Invalid {
            return None;
        }
        Some(self.giving_way(node, message, Line::Invalid, line.owned()))
    }

    // DOWN.
    fn downgraded(self, node: u32, message: Message<u32>) -> Outcome
        ensures { result ≡ downgraded self node message }
    {
        let words = self.lines.get(message.place).owned()?;
        Some(self.giving_way(node, message, Line::Shared(words), Some(words)))
    }

    // The request is answered.
    fn taking(self, node: u32, message: Message<u32>) -> Reaction<Processor<u64>>
        ensures { result ≡ taking self node message }
    {
        let next = Processor {
            clock: self.clock.passed(message.clock),
            requests: self.requests.with(message.place, None),
            ..self.into()
        };
        let taken = Message::plain(Kind::Taken, node, message.sender, message.place);
        Reaction::sending(next, taken)
    }

    fn taking_line(self, node: u32, message: Message<u32>, line: Line) -> Reaction<Processor<u64>>
        ensures { result ≡ taking_line self node message line }
    {
        let next = Processor {
            lines: self.lines.with(message.place, line),
            ..self
        };
        next.taking(node, message)
    }

    // S-DATA and X-DATA, and the request that each answers.
    fn filled(self, node: u32, message: Message<u32>, request: Kind, line: Line) -> Outcome
        ensures { result ≡ filled self node message request line }
    {
        if !self.requests.is_out(message.place, request) {
            return None;
        }
        Some(self.taking_line(node, message, line))
    }

    // GRANT.
    fn granted(self, node: u32, message: Message<u32>) -> Outcome
        ensures { result ≡ granted self node message }
    {
        let Line::Shared(words) = self.lines.get(message.place) else {
            return None;
        };
        self.filled(node, message, Kind::Upg, Line::Exclusive(words))
    }

    // DONE.
    fn done(self, node: u32, message: Message<u32>) -> Outcome
        ensures { result ≡ done self node message }
    {
        if !self.requests.is_out(message.place, Kind::Wb) {
            return None;
        }
        Some(self.taking(node, message))
    }

    // NACK.
    fn nacked(self, message: Message<u32>) -> Outcome
        ensures { result ≡ nacked self message }
    {
        if !self.requests.is_out(message.place, message.refused?) {
            return None;
        }
        let next = Processor {
            requests: self.requests.with(message.place, None),
            ..self.into()
        };
        Some(Reaction::quiet(next))
    }

    // INT, an operation of the party that sent it.
    fn interrupted(self, node: u32, message: Message<u32>) -> Reaction<Processor<u64>>
        ensures { result ≡ interrupted self node message }
    {
        let clock = self.clock.passed_and_counted(message.clock);
        let word = first_word(message.words);
        let entry = Entry {
            party: message.sender,
            sequence: message.sequence,
            operation: Operation::Int,
            space: 3,
            place: node,
            values: Words::one(word),
            stamp: Stamp::of(clock, node),
        };
        let next = Processor {
            clock,
            register: Some(word),
            ..self.into()
        };
        Reaction::doing(next, entry, None)
    }

    // VALUE.
    fn fetched(self, device: u32, word: u32, clock: u32) -> Outcome
        ensures { result ≡ fetched self device word clock }
    {
        let slot = match self.slots.get(device) {
            Slot::Awaited => Slot::Came(word),
            Slot::Abandoned => Slot::Free,
            Slot::Free | Slot::Came(_) => return None,
        };
        let next = Processor {
            clock: self.clock.passed(clock),
            slots: self.slots.with(device, slot),
            ..self.into()
        };
        Some(Reaction::quiet(next))
    }

    fn fetched_from(self, message: Message<u32>) -> Outcome
        ensures { result ≡ fetched_from self message }
    {
        let Node::Device(device) = Node::numbered(message.sender)? else {
            return None;
        };
        self.fetched(device, first_word(message.words), message.clock)
    }

    /// The reaction to a message, or none where there is no rule.
    pub fn receive(self, node: u32, message: Message<u32>) -> Outcome
        ensures value { result ≡ receive self node message }
        ensures quiet { IfSome result (λ x. x.answer ≡ None) }
    {
        let words = message.words;
        match message.kind {
            Kind::Int => Some(self.interrupted(node, message)),
            Kind::Inv => self.invalidated(node, message),
            Kind::Down => self.downgraded(node, message),
            Kind::SData => self.filled(node, message, Kind::Gets, Line::Shared(words)),
            Kind::XData => self.filled(node, message, Kind::Getx, Line::Exclusive(words)),
            Kind::Grant => self.granted(node, message),
            Kind::Done => self.done(node, message),
            Kind::Value => self.fetched_from(message),
            Kind::Nack => self.nacked(message),
            _ => None,
        }
    }
}
