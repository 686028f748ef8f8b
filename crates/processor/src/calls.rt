//! What a processor does at each call: its reaction, or why it refuses. `node` is its own number, which it does not
//! hold: that is where it stands on the board.

ghost use Rattle.std.specs.Prelude.{◌≡◌, ◌<◌, true, is_some, IfOk, None};
ghost use Rattle.processor.specs.Calls.{operation_entry, operated, ready, load, store, request, to_device, ldio};
ghost use Rattle.processor.specs.Calls.{stio, collect, give_up, poll};

use crate::line::{Line, with_word, word_of};
use crate::refusal::Refusal;
use crate::slot::{Slot, awaited_device};
use crate::state::Processor;
use message::block::Block;
use message::kind::Kind;
use message::message::Message;
use message::reaction::Reaction;
use ordering::operation::{Operation, Words};
use ordering::stamp::Stamp;
use trail::entry::Entry;

/// The reaction to a call, or why it is refused.
pub type Answer = Result<Reaction<Processor<u64>>, Refusal>;

impl Processor {
    // The entry of an operation on a line, stamped with the clock that counts it.
    fn operation(self, node: u32, operation: Operation, word: u32, value: u32) -> Entry
        ensures { result ≡ operation_entry self node operation word value }
    {
        Entry {
            party: node,
            sequence: self.sequence,
            operation,
            space: 0,
            place: word,
            values: Words::one(value),
            stamp: Stamp::of(self.clock.counted(), node),
        }
    }

    // A message about a word of a device, with the processor's clock and the operation's number.
    fn to_device(self, kind: Kind, node: u32, device: u32, word: u32, words: Words) -> Message
        requires { device < 2 }
        ensures { result ≡ to_device kind self node device word words }
    {
        Message {
            words,
            clock: u64::from(self.clock.global),
            sequence: self.sequence,
            ..Message::plain(kind, node, 4 + device, word)
        }
    }

    // An operation on a line is done at once: it is counted, and takes the next number.
    fn operated(self) -> Processor<u64>
        ensures { result ≡ operated self }
    {
        Processor {
            clock: self.clock.counted(),
            sequence: u64::from(self.sequence) + 1,
            ..self.into()
        }
    }

    // An operation needs a fit line, and the word of every own LDio.
    fn ready(self, block: u32, words: Option<Words>) -> Result<Words, Refusal>
        ensures { result ≡ ready self block words }
    {
        let words = words.ok_or(Refusal::NotHeld(block))?;
        match awaited_device(self.slots) {
            None => Ok(words),
            Some(device) => Err(Refusal::Awaits(device)),
        }
    }

    // The answer stands in the reaction, for each kind of node; `answer` and `quiet` say it of each call.
    /// An LD: tells the word.
    pub fn load(self, node: u32, word: u32) -> Answer
        ensures value { result ≡ load self node word }
        ensures answer { IfOk result (λ x. is_some x.answer ≡ true) }
    {
        let block = word / 4;
        let words = self.ready(block, self.lines.get(block).held())?;
        let value = word_of(words, word);
        let entry = self.operation(node, Operation::Ld, word, value);
        Ok(Reaction::doing(self.operated(), entry, Some(value)))
    }

    /// An ST.
    pub fn store(self, node: u32, word: u32, value: u32) -> Answer
        ensures value { result ≡ store self node word value }
        ensures quiet { IfOk result (λ x. x.answer ≡ None) }
    {
        let block = word / 4;
        let words = self.ready(block, self.lines.get(block).owned())?;
        let line = Line::Exclusive(with_word(words, word, value));
        let next = Processor {
            lines: self.lines.with(block, line),
            ..self.operated()
        };
        let entry = self.operation(node, Operation::St, word, value);
        Ok(Reaction::doing(next, entry, None))
    }

    /// Asks a block's home for a copy, for the right to store, or to take its words back.
    pub fn request(self, node: u32, block: u32, kind: Kind) -> Answer
        ensures value { result ≡ request self node block kind }
        ensures quiet { IfOk result (λ x. x.answer ≡ None) }
    {
        let home = Block::new(block).ok_or(Refusal::Unfit(block))?.home();
        if !self.lines.get(block).fits(kind) {
            return Err(Refusal::Unfit(block));
        }
        if self.requests.get(block).is_some() {
            return Err(Refusal::RequestOut(block));
        }
        let next = Processor {
            requests: self.requests.with(block, Some(kind)),
            ..self.into()
        };
        let message = Message::plain(kind, node, home, block);
        Ok(Reaction::sending(next, message))
    }

    /// Asks a device for one of its words; the word comes into the slot.
    pub fn ldio(self, node: u32, device: u32, word: u32) -> Answer
        ensures value { result ≡ ldio self node device word }
        ensures quiet { IfOk result (λ x. x.answer ≡ None) }
    {
        if device >= 2 || self.slots.get(device) != Slot::Free {
            return Err(Refusal::SlotTaken(device));
        }
        let next = Processor {
            sequence: u64::from(self.sequence) + 1,
            slots: self.slots.with(device, Slot::Awaited),
            ..self.into()
        };
        let message = self.to_device(Kind::Rio, node, device, word, Words::ZERO);
        Ok(Reaction::sending(next, message))
    }

    /// Sends a device a value for one of its words.
    pub fn stio(self, node: u32, device: u32, word: u32, value: u32) -> Answer
        ensures value { result ≡ stio self node device word value }
        ensures quiet { IfOk result (λ x. x.answer ≡ None) }
    {
        if device >= 2 {
            return Err(Refusal::SlotTaken(device));
        }
        let next = Processor {
            sequence: u64::from(self.sequence) + 1,
            ..self.into()
        };
        let message = self.to_device(Kind::Wio, node, device, word, Words::one(value));
        Ok(Reaction::sending(next, message))
    }

    /// Tells a word that came, and frees its slot.
    pub fn collect(self, device: u32) -> Answer
        ensures value { result ≡ collect self device }
        ensures answer { IfOk result (λ x. is_some x.answer ≡ true) }
    {
        let Slot::Came(word) = self.slots.get(device) else {
            return Err(Refusal::NotCollectable(device));
        };
        let next = Processor {
            slots: self.slots.with(device, Slot::Free),
            ..self.into()
        };
        Ok(Reaction::telling(next, Some(word)))
    }

    /// Lets a slot go: at once if its word came, else once it comes.
    pub fn give_up(self, device: u32) -> Answer
        ensures value { result ≡ give_up self device }
        ensures quiet { IfOk result (λ x. x.answer ≡ None) }
    {
        let left = match self.slots.get(device) {
            Slot::Awaited => Slot::Abandoned,
            Slot::Came(_) => Slot::Free,
            Slot::Free | Slot::Abandoned => return Err(Refusal::NotCollectable(device)),
        };
        let next = Processor {
            slots: self.slots.with(device, left),
            ..self.into()
        };
        Ok(Reaction::quiet(next))
    }

    /// Tells the latest interrupt word that was not polled, or none.
    pub fn poll(self) -> Reaction<Processor<u64>>
        ensures { result ≡ poll self }
    {
        let next = Processor {
            register: None,
            ..self.into()
        };
        Reaction::telling(next, self.register)
    }
}
