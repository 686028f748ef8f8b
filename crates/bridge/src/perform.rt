//! Performing a plan: the one place where the device is read, written and told.

ghost use Rattle.std.specs.Prelude.{◌≡◌, slice_index};
ghost use Rattle.device.specs.Meaning.{read_exit};
ghost use Rattle.bridge.specs.Deeds.{access_entry, outcome_of, loaded, stored, accepted, answered, written, ended};
ghost use Rattle.bridge.specs.Deeds.{performed};
ghost use Rattle.bridge.specs.States.{view};

use crate::plan::{Deed, Plan, WordAccess};
use crate::state::Bridge;
use device::meaning::Device;
use message::kind::Kind;
use message::message::Message;
use message::node::device_node;
use message::reaction::Reaction;
use ordering::clock::Clock;
use ordering::operation::{Operation, Words};
use ordering::stamp::Stamp;
use trail::entry::Entry;

/// What leaves the node: messages, and the operation that it did.
pub type Outcome = Reaction<()>;

fn access_entry(
    number: u8,
    clock: Clock,
    access: WordAccess,
    operation: Operation,
    word: u32,
) -> Entry
    ensures { result ≡ access_entry number clock access operation word }
{
    Entry {
        party: access.party,
        sequence: access.sequence,
        operation,
        space: 1 + u32::from(number),
        place: access.place,
        values: Words::one(word),
        stamp: Stamp::of(clock.into(), device_node(number)),
    }
}

// A word that is not there reads as 0.
fn read_word<D: Device>(device: &mut D, place: u32) -> u32
    ensures exit { D.Device.state device.new ≡ read_exit D.Device.meaning (D.Device.state device.old) place }
    ensures word { result ≡ slice_index (D.Device.meaning.words (D.Device.state device.old)) place }
{
    device.read(place).unwrap_or(0)
}

impl<D: Device> Bridge<D> {
    // Its own LDio: the device gets the word.
    fn load(&mut self, number: u8, access: WordAccess) -> Outcome
        ensures exit { view D.Device.state self.new ≡ (loaded D.Device.meaning number (view D.Device.state self.old) access).next }
        ensures outcome { result ≡ outcome_of (loaded D.Device.meaning number (view D.Device.state self.old) access) }
    {
        let word = read_word(&mut self.device, access.place);
        self.device.accepted(word);
        let entry = access_entry(number, self.clock, access, Operation::LdIo, word);
        Reaction::doing((), entry, None)
    }

    // Its own STio.
    fn store(&mut self, number: u8, access: WordAccess, value: u32) -> Outcome
        ensures exit { view D.Device.state self.new ≡ (stored D.Device.meaning number (view D.Device.state self.old) access value).next }
        ensures outcome { result ≡ outcome_of (stored D.Device.meaning number (view D.Device.state self.old) access value) }
    {
        let _ = self.device.write(access.place, value);
        self.device.accepted(0);
        let entry = access_entry(number, self.clock, access, Operation::StIo, value);
        Reaction::doing((), entry, None)
    }

    // Its wish went out as a message.
    fn accepted(&mut self, message: Message) -> Outcome
        ensures exit { view D.Device.state self.new ≡ (accepted D.Device.meaning (view D.Device.state self.old) message).next }
        ensures outcome { result ≡ outcome_of (accepted D.Device.meaning (view D.Device.state self.old) message) }
    {
        self.device.accepted(0);
        Reaction::sending((), message)
    }

    // A processor's LDio: VALUE carries the word.
    fn read(&mut self, number: u8, access: WordAccess) -> Outcome
        ensures exit { view D.Device.state self.new ≡ (answered D.Device.meaning number (view D.Device.state self.old) access).next }
        ensures outcome { result ≡ outcome_of (answered D.Device.meaning number (view D.Device.state self.old) access) }
    {
        let word = read_word(&mut self.device, access.place);
        let value = Message {
            words: Words::one(word),
            clock: u64::from(self.clock.global),
            ..Message::plain(Kind::Value, device_node(number), access.party, access.place)
        };
        let entry = access_entry(number, self.clock, access, Operation::LdIo, word);
        Reaction {
            entry: Some(entry),
            ..Reaction::sending((), value)
        }
    }

    // A processor's STio.
    fn write(&mut self, number: u8, access: WordAccess, word: u32) -> Outcome
        ensures exit { view D.Device.state self.new ≡ (written D.Device.meaning number (view D.Device.state self.old) access word).next }
        ensures outcome { result ≡ outcome_of (written D.Device.meaning number (view D.Device.state self.old) access word) }
    {
        let _ = self.device.write(access.place, word);
        let entry = access_entry(number, self.clock, access, Operation::StIo, word);
        Reaction::doing((), entry, None)
    }

    // The request for a block is answered.
    fn end(&mut self, number: u8, home: u32, block: u32) -> Outcome
        ensures exit { view D.Device.state self.new ≡ (ended number (view D.Device.state self.old) home block).next }
        ensures outcome { result ≡ outcome_of (ended number (view D.Device.state self.old) home block) }
    {
        self.requests = self.requests.with(block, None);
        let taken = Message::plain(Kind::Taken, device_node(number), home, block);
        Reaction::sending((), taken)
    }

    /// Does what was planned.
    pub fn perform(&mut self, number: u8, plan: Plan) -> Outcome
        ensures exit { view D.Device.state self.new ≡ (performed D.Device.meaning number (view D.Device.state self.old) plan).next }
        ensures outcome { result ≡ outcome_of (performed D.Device.meaning number (view D.Device.state self.old) plan) }
    {
        self.clock = plan.clock;
        self.sequence = plan.sequence;
        match plan.deed {
            Deed::Load(access) => self.load(number, access),
            Deed::Store(access, word) => self.store(number, access, word),
            Deed::Interrupt(message) => self.accepted(message),
            Deed::Request(message) => {
                self.requests = self.requests.with(message.place, Some(message.kind));
                self.accepted(message)
            }
            Deed::Read(access) => self.read(number, access),
            Deed::Write(access, word) => self.write(number, access, word),
            Deed::Land { home, block, words } => {
                self.device.landed(block, words);
                self.end(number, home, block)
            }
            Deed::Finish { home, block } => self.end(number, home, block),
            Deed::Resend(message) => Reaction::sending((), message),
        }
    }
}
