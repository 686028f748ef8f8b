//! What a bridge decides to do about its device's wish. `number` is the device's, 0 or 1: a narrow number, so that the
//! node's can always be had from it, and no part of the bridge, since where it stands on the board says it.

ghost use Rattle.std.specs.Prelude.{◌≡◌};
ghost use Rattle.bridge.specs.Acts.{any_out, numbering, wish_message, own_access, own, interrupt, request, act_plan};
ghost use Rattle.bridge.specs.States.{view};

use crate::fault::DeviceFault;
use crate::plan::{Deed, Plan, WordAccess};
use crate::state::Bridge;
use device::meaning::Device;
use message::block::Block;
use message::kind::Kind;
use message::message::Message;
use message::node::device_node;
use message::table::Requests;
use ordering::clock::Clock;
use ordering::operation::{Operation, Words};

/// What is planned for the device's wish, or why it is not done.
pub type Decision = Result<Plan<u64>, DeviceFault>;

// Whether a request is out for any block.
fn any_out(requests: Requests) -> bool
    ensures { result ≡ any_out requests }
{
    requests.at.iter().any(|request| request.is_some())
}

impl<D: Device> Bridge<D> {
    // Every operation of the device takes its next number.
    fn numbering(&self, clock: Clock<u64>, deed: Deed) -> Plan<u64>
        ensures { result ≡ numbering (view D.Device.state self.now) clock deed }
    {
        Plan {
            clock,
            sequence: u64::from(self.sequence) + 1,
            deed,
        }
    }

    // What is done elsewhere goes out with the clock as it stands and the operation's number.
    fn wish_message(
        &self,
        kind: Kind,
        number: u8,
        receiver: u32,
        place: u32,
        words: Words,
    ) -> Message
        ensures { result ≡ wish_message kind number (view D.Device.state self.now) receiver place words }
    {
        Message {
            words,
            clock: u64::from(self.clock.global),
            sequence: self.sequence,
            ..Message::plain(kind, device_node(number), receiver, place)
        }
    }

    fn own_access(&self, number: u8, place: u32) -> WordAccess
        ensures { result ≡ own_access number (view D.Device.state self.now) place }
    {
        WordAccess {
            party: device_node(number),
            sequence: self.sequence,
            place,
        }
    }

    // An LDio or STio of its own, at a word that it has.
    fn own(&self, number: u8, place: u32, deed: Deed) -> Decision
        ensures { result ≡ own D.Device.meaning number (view D.Device.state self.now) place deed }
    {
        if place >= self.device.count() {
            return Err(DeviceFault::BadWish(u32::from(number)));
        }
        Ok(self.numbering(self.clock.counted(), deed))
    }

    // An interrupt says that what was asked for is there, so it waits for every block.
    fn interrupt(&self, number: u8, processors: u32, processor: u32, word: u32) -> Decision
        ensures { result ≡ interrupt number (view D.Device.state self.now) processors processor word }
    {
        if processor >= processors {
            return Err(DeviceFault::BadWish(u32::from(number)));
        }
        if any_out(self.requests) {
            return Err(DeviceFault::MustWait(u32::from(number)));
        }
        let words = Words::one(word);
        let message = self.wish_message(Kind::Int, number, processor, processor, words);
        Ok(self.numbering(self.clock.into(), Deed::Interrupt(message)))
    }

    fn request(&self, number: u8, kind: Kind, block: u32, words: Words) -> Decision
        ensures { result ≡ request number (view D.Device.state self.now) kind block words }
    {
        let home = Block::new(block)
            .ok_or(DeviceFault::BadWish(u32::from(number)))?
            .home();
        if self.requests.get(block).is_some() {
            return Err(DeviceFault::MustWait(u32::from(number)));
        }
        let message = self.wish_message(kind, number, home, block, words);
        Ok(self.numbering(self.clock.into(), Deed::Request(message)))
    }

    /// What it will do about the device's wish, or why it may not.
    pub fn act(&self, number: u8, processors: u32) -> Decision
        ensures { result ≡ act_plan D.Device.meaning number processors (view D.Device.state self.now) }
    {
        let device = u32::from(number);
        let wish = self.device.wish().ok_or(DeviceFault::NoWish(device))?;
        let word = wish.words.at[0];
        let access = self.own_access(number, wish.place);
        match wish.operation {
            Operation::Ld | Operation::St => Err(DeviceFault::BadWish(device)),
            Operation::LdIo => self.own(number, wish.place, Deed::Load(access)),
            Operation::StIo => self.own(number, wish.place, Deed::Store(access, word)),
            Operation::Int => self.interrupt(number, processors, wish.processor, word),
            Operation::LdBlk => self.request(number, Kind::Rblk, wish.place, Words::ZERO),
            Operation::StBlk => self.request(number, Kind::Wblk, wish.place, wish.words),
        }
    }
}
