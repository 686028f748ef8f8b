//! The calls of a board, by name or any of them as one, and where a word of a read came from. Each call is a step, and
//! goes on with whatever run its board was reached in, which keeps the order promise. The steps stand in functions of
//! their own, since a body with many returns would owe the promise at each.

ghost use Rattle.std.specs.Prelude.{◌≡◌};
ghost use Rattle.coherence.specs.declared.call.Call.TheVariants.{Load, Store, Request, LdIo, StIo};
ghost use Rattle.coherence.specs.declared.call.Call.TheVariants.{Collect, GiveUp, Act, Deliver, Poll};
ghost use Rattle.list.specs.Contents.{contents};
ghost use Rattle.raster.specs.Answers.{word_answer, done_answer, source_answer};
ghost use Rattle.raster.specs.Calls.{Did};

use crate::board::Board;
use coherence::call::Call;
use coherence::fault::Fault;
use device::meaning::Device;
use list::List;
use message::message::Message;
use queries::source::source;
use trail::entry::Entry;

// A call that was made and tells nothing.
fn done(answer: Result<(), Fault>) -> Result<Option<u32>, Fault>
    ensures { result ≡ done_answer answer }
{
    answer.map(|()| None)
}

#[tactic(auto, using(crate::proofs::Going::did))]
impl<A: Device, B: Device> Board<A, B> {
    /// Does an LD on a line that is S or X, and tells the word.
    pub fn load(
        &mut self,
        messages: &mut List<Message>,
        trail: &mut List<Entry>,
        processor: u32,
        word: u32,
    ) -> Result<u32, Fault>
        ensures { Did A.Device B.Device self.old messages.old trail.old
            (Load processor word) (word_answer result) self.new messages.new trail.new }
    {
        self.load_step(messages, trail, processor, word)
    }

    /// Does an ST on a line that is X.
    pub fn store(
        &mut self,
        messages: &mut List<Message>,
        trail: &mut List<Entry>,
        processor: u32,
        word: u32,
        value: u32,
    ) -> Result<(), Fault>
        ensures { Did A.Device B.Device self.old messages.old trail.old
            (Store processor word value) (done_answer result) self.new messages.new trail.new }
    {
        self.store_step(messages, trail, processor, word, value)
    }

    // A number and no `Kind`, since one that is out of range is refused by its place.
    /// Asks the home of a block for GETS, GETX, UPG or WB: kinds 1 to 4.
    pub fn request(
        &mut self,
        messages: &mut List<Message>,
        trail: &mut List<Entry>,
        processor: u32,
        block: u32,
        kind: u32,
    ) -> Result<(), Fault>
        ensures { Did A.Device B.Device self.old messages.old trail.old
            (Request processor block kind) (done_answer result) self.new messages.new trail.new }
    {
        self.request_step(messages, trail, processor, block, kind)
    }

    /// Asks a device for one of its words, and takes the slot for it.
    pub fn ldio(
        &mut self,
        messages: &mut List<Message>,
        trail: &mut List<Entry>,
        processor: u32,
        device: u32,
        word: u32,
    ) -> Result<(), Fault>
        ensures { Did A.Device B.Device self.old messages.old trail.old
            (LdIo processor device word) (done_answer result) self.new messages.new trail.new }
    {
        self.ldio_step(messages, trail, processor, device, word)
    }

    /// Sends a device a value for one of its words.
    pub fn stio(
        &mut self,
        messages: &mut List<Message>,
        trail: &mut List<Entry>,
        processor: u32,
        device: u32,
        word: u32,
        value: u32,
    ) -> Result<(), Fault>
        ensures { Did A.Device B.Device self.old messages.old trail.old
            (StIo processor device word value) (done_answer result) self.new messages.new trail.new }
    {
        self.stio_step(messages, trail, processor, device, word, value)
    }

    /// Tells the word that came from a device, and frees the slot.
    pub fn collect(
        &mut self,
        messages: &mut List<Message>,
        trail: &mut List<Entry>,
        processor: u32,
        device: u32,
    ) -> Result<u32, Fault>
        ensures { Did A.Device B.Device self.old messages.old trail.old
            (Collect processor device) (word_answer result) self.new messages.new trail.new }
    {
        self.collect_step(messages, trail, processor, device)
    }

    /// Lets the slot for a device go: at once if its word came, else once it comes.
    pub fn give_up(
        &mut self,
        messages: &mut List<Message>,
        trail: &mut List<Entry>,
        processor: u32,
        device: u32,
    ) -> Result<(), Fault>
        ensures { Did A.Device B.Device self.old messages.old trail.old
            (GiveUp processor device) (done_answer result) self.new messages.new trail.new }
    {
        self.give_up_step(messages, trail, processor, device)
    }

    /// Does the wish of a device.
    pub fn act(
        &mut self,
        messages: &mut List<Message>,
        trail: &mut List<Entry>,
        device: u32,
    ) -> Result<(), Fault>
        ensures { Did A.Device B.Device self.old messages.old trail.old
            (Act device) (done_answer result) self.new messages.new trail.new }
    {
        self.act_step(messages, trail, device)
    }

    /// Hands the message at a place over to its receiver.
    pub fn deliver(
        &mut self,
        messages: &mut List<Message>,
        trail: &mut List<Entry>,
        place: u32,
    ) -> Result<(), Fault>
        ensures { Did A.Device B.Device self.old messages.old trail.old
            (Deliver place) (done_answer result) self.new messages.new trail.new }
    {
        self.deliver_step(messages, trail, place)
    }

    /// Tells the latest interrupt word that was not polled, or none.
    pub fn poll(
        &mut self,
        messages: &mut List<Message>,
        trail: &mut List<Entry>,
        processor: u32,
    ) -> Result<Option<u32>, Fault>
        ensures { Did A.Device B.Device self.old messages.old trail.old
            (Poll processor) result self.new messages.new trail.new }
    {
        self.poll_step(messages, trail, processor)
    }

    /// Makes any of the calls.
    pub fn call(
        &mut self,
        messages: &mut List<Message>,
        trail: &mut List<Entry>,
        call: Call,
    ) -> Result<Option<u32>, Fault>
        ensures { Did A.Device B.Device self.old messages.old trail.old
            call result self.new messages.new trail.new }
    {
        match call {
            Call::Load { processor, word } => self.load(messages, trail, processor, word).map(Some),
            Call::Store {
                processor,
                word,
                value,
            } => done(self.store(messages, trail, processor, word, value)),
            Call::Request {
                processor,
                block,
                kind,
            } => done(self.request(messages, trail, processor, block, kind)),
            Call::LdIo {
                processor,
                device,
                word,
            } => done(self.ldio(messages, trail, processor, device, word)),
            Call::StIo {
                processor,
                device,
                word,
                value,
            } => done(self.stio(messages, trail, processor, device, word, value)),
            Call::Collect { processor, device } => {
                self.collect(messages, trail, processor, device).map(Some)
            }
            Call::GiveUp { processor, device } => {
                done(self.give_up(messages, trail, processor, device))
            }
            Call::Act { device } => done(self.act(messages, trail, device)),
            Call::Deliver { place } => done(self.deliver(messages, trail, place)),
            Call::Poll { processor } => self.poll(messages, trail, processor),
        }
    }

    /// Where a word of a read entry came from: the entry and its value, or none where no write came before.
    pub fn source(
        &self,
        trail: &List<Entry>,
        entry: usize,
        word: u32,
    ) -> Result<Option<(usize, u32)>, Fault>
        ensures { result ≡ source_answer self.now.tables.fit (contents trail.now) «entry» word }
    {
        self.check_fit()?;
        Ok(source(trail.records(), entry, word)?)
    }
}
