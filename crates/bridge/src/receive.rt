//! What a bridge decides to do when a message reaches it, or none where there is no rule. The fields
//! that a kind leaves empty, and who may send it, are not looked at here.

ghost use Rattle.std.specs.Prelude.{◌≡◌};
ghost use Rattle.bridge.specs.Receipts.{answering, asked_access, asked, replied, refused, receive_plan};
ghost use Rattle.bridge.specs.States.{view};

use crate::plan::{Deed, Plan, WordAccess};
use crate::state::Bridge;
use device::meaning::Device;
use message::kind::Kind;
use message::message::Message;
use message::node::device_node;
use ordering::clock::Clock;

fn asked_access(message: Message<u32>) -> WordAccess
    ensures { result ≡ asked_access message }
{
    WordAccess {
        party: message.sender,
        sequence: message.sequence,
        place: message.place,
    }
}

impl<D: Device> Bridge<D> {
    // The device's own numbers go on only at its own operations.
    fn answering(&self, clock: Clock<u64>, deed: Deed) -> Plan<u64>
        ensures { result ≡ answering (view D.Device.state self.now) clock deed }
    {
        Plan {
            clock,
            sequence: u64::from(self.sequence),
            deed,
        }
    }

    // Rio or Wio: an operation of the sender's, at a word that the device has.
    fn asked(&self, message: Message<u32>, deed: Deed) -> Option<Plan<u64>>
        ensures { result ≡ asked D.Device.meaning (view D.Device.state self.now) message deed }
    {
        if message.place >= self.device.count() {
            return None;
        }
        let clock = self.clock.passed_and_counted(message.clock);
        Some(self.answering(clock, deed))
    }

    // WORDS or DONE, where the request that it answers is out.
    fn replied(&self, message: Message<u32>, request: Kind, deed: Deed) -> Option<Plan<u64>>
        ensures { result ≡ replied (view D.Device.state self.now) message request deed }
    {
        if !self.requests.is_out(message.place, request) {
            return None;
        }
        let clock = self.clock.passed(message.clock);
        Some(self.answering(clock, deed))
    }

    // NACK: the same request, with the clock as it stands now.
    fn refused(&self, number: u8, message: Message<u32>) -> Option<Plan<u64>>
        ensures { result ≡ refused number (view D.Device.state self.now) message }
    {
        let kind = message.refused?;
        if !self.requests.is_out(message.place, kind) {
            return None;
        }
        let request = Message {
            words: message.words,
            clock: u64::from(self.clock.global),
            sequence: message.sequence,
            ..Message::plain(kind, device_node(number), message.sender, message.place)
        };
        Some(self.answering(self.clock.into(), Deed::Resend(request)))
    }

    /// What it will do about the message, or none where there is no rule.
    pub fn receive(&self, number: u8, message: Message<u32>) -> Option<Plan<u64>>
        ensures { result ≡ receive_plan D.Device.meaning number (view D.Device.state self.now) message }
    {
        let access = asked_access(message);
        let word = message.words.at[0];
        let home = message.sender;
        let block = message.place;
        let words = message.words;
        match message.kind {
            Kind::Rio => self.asked(message, Deed::Read(access)),
            Kind::Wio => self.asked(message, Deed::Write(access, word)),
            Kind::Done => self.replied(message, Kind::Wblk, Deed::Finish { home, block }),
            Kind::Words => self.replied(message, Kind::Rblk, Deed::Land { home, block, words }),
            Kind::Nack => self.refused(number, message),
            _ => None,
        }
    }
}
