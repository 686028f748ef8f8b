//! The step of each call: the checks in the order of their numbers, one node's reaction, one commit.

ghost use Rattle.std.specs.Prelude.{◌≡◌, ◌<◌, true, length, OnOk, nat_lt};
ghost use Rattle.coherence.specs.declared.call.Call.TheVariants.{Load, Store, Request, LdIo, StIo};
ghost use Rattle.coherence.specs.declared.call.Call.TheVariants.{Collect, GiveUp, Act, Deliver, Poll};
ghost use Rattle.raster.specs.Answers.{word_answer, done_answer};
ghost use Rattle.raster.specs.Boards.{device_words, known_processor, known_word};
ghost use Rattle.raster.specs.Calls.{Stepped};

use crate::board::{Board, check_below};
use crate::bridges::act_at;
use crate::deliveries::pick;
use coherence::fault::{BoardFault, Fault};
use device::meaning::Device;
use list::List;
use message::kind::Kind;
use message::message::Message;
use processor::state::Processor;
use trail::entry::Entry;

impl<A: Device, B: Device> Board<A, B> {
    // A processor of a board that is fit; its number is every call's first argument.
    fn processor(&self, number: u32) -> Result<Processor, Fault>
        ensures value { result ≡ known_processor self.now number }
        ensures place { OnOk result (number < 4) }
    {
        self.check_fit()?;
        check_below(number, self.tables.count, 1)?;
        Ok(self.tables.processors[number as usize])
    }

    // A word of a device: the second and the third argument.
    fn check_device_word(&self, device: u32, word: u32) -> Result<(), Fault>
        ensures value { result ≡ known_word A.Device B.Device self.now device word }
        ensures device { OnOk result (nat_lt device 2 ≡ true) }
        ensures word { OnOk result (nat_lt word (length (device_words A.Device B.Device self.now device)) ≡ true) }
    {
        check_below(device, 2, 2)?;
        check_below(word, self.word_count(device), 3)
    }

    pub(crate) fn load_step(
        &mut self,
        messages: &mut List<Message>,
        trail: &mut List<Entry>,
        processor: u32,
        word: u32,
    ) -> Result<u32, Fault>
        ensures { Stepped A.Device B.Device self.old messages.old trail.old
            (Load processor word) (word_answer result) self.new messages.new trail.new }
    {
        let state = self.processor(processor)?;
        check_below(word, 64, 2)?;
        let reaction = state.load(processor, word)?;
        let answer = self.commit_processor(messages, trail, None, processor, reaction)?;
        Ok(answer.unwrap_or(0))
    }

    pub(crate) fn store_step(
        &mut self,
        messages: &mut List<Message>,
        trail: &mut List<Entry>,
        processor: u32,
        word: u32,
        value: u32,
    ) -> Result<(), Fault>
        ensures { Stepped A.Device B.Device self.old messages.old trail.old
            (Store processor word value) (done_answer result) self.new messages.new trail.new }
    {
        let state = self.processor(processor)?;
        check_below(word, 64, 2)?;
        let reaction = state.store(processor, word, value)?;
        let _ = self.commit_processor(messages, trail, None, processor, reaction)?;
        Ok(())
    }

    pub(crate) fn request_step(
        &mut self,
        messages: &mut List<Message>,
        trail: &mut List<Entry>,
        processor: u32,
        block: u32,
        kind: u32,
    ) -> Result<(), Fault>
        ensures { Stepped A.Device B.Device self.old messages.old trail.old
            (Request processor block kind) (done_answer result) self.new messages.new trail.new }
    {
        let state = self.processor(processor)?;
        check_below(block, 16, 2)?;
        let kind = Kind::requested(kind).ok_or(BoardFault::Argument(3))?;
        let reaction = state.request(processor, block, kind)?;
        let _ = self.commit_processor(messages, trail, None, processor, reaction)?;
        Ok(())
    }

    pub(crate) fn ldio_step(
        &mut self,
        messages: &mut List<Message>,
        trail: &mut List<Entry>,
        processor: u32,
        device: u32,
        word: u32,
    ) -> Result<(), Fault>
        ensures { Stepped A.Device B.Device self.old messages.old trail.old
            (LdIo processor device word) (done_answer result) self.new messages.new trail.new }
    {
        let state = self.processor(processor)?;
        self.check_device_word(device, word)?;
        let reaction = state.ldio(processor, device, word)?;
        let _ = self.commit_processor(messages, trail, None, processor, reaction)?;
        Ok(())
    }

    pub(crate) fn stio_step(
        &mut self,
        messages: &mut List<Message>,
        trail: &mut List<Entry>,
        processor: u32,
        device: u32,
        word: u32,
        value: u32,
    ) -> Result<(), Fault>
        ensures { Stepped A.Device B.Device self.old messages.old trail.old
            (StIo processor device word value) (done_answer result) self.new messages.new trail.new }
    {
        let state = self.processor(processor)?;
        self.check_device_word(device, word)?;
        let reaction = state.stio(processor, device, word, value)?;
        let _ = self.commit_processor(messages, trail, None, processor, reaction)?;
        Ok(())
    }

    pub(crate) fn collect_step(
        &mut self,
        messages: &mut List<Message>,
        trail: &mut List<Entry>,
        processor: u32,
        device: u32,
    ) -> Result<u32, Fault>
        ensures { Stepped A.Device B.Device self.old messages.old trail.old
            (Collect processor device) (word_answer result) self.new messages.new trail.new }
    {
        let state = self.processor(processor)?;
        check_below(device, 2, 2)?;
        let reaction = state.collect(device)?;
        let answer = self.commit_processor(messages, trail, None, processor, reaction)?;
        Ok(answer.unwrap_or(0))
    }

    pub(crate) fn give_up_step(
        &mut self,
        messages: &mut List<Message>,
        trail: &mut List<Entry>,
        processor: u32,
        device: u32,
    ) -> Result<(), Fault>
        ensures { Stepped A.Device B.Device self.old messages.old trail.old
            (GiveUp processor device) (done_answer result) self.new messages.new trail.new }
    {
        let state = self.processor(processor)?;
        check_below(device, 2, 2)?;
        let reaction = state.give_up(device)?;
        let _ = self.commit_processor(messages, trail, None, processor, reaction)?;
        Ok(())
    }

    #[tactic(auto, using(crate::proofs::Lifting::first_wish, crate::proofs::Lifting::second_wish))]
    pub(crate) fn act_step(
        &mut self,
        messages: &mut List<Message>,
        trail: &mut List<Entry>,
        device: u32,
    ) -> Result<(), Fault>
        ensures { Stepped A.Device B.Device self.old messages.old trail.old
            (Act device) (done_answer result) self.new messages.new trail.new }
    {
        self.check_fit()?;
        check_below(device, 2, 1)?;
        if device < 1 {
            act_at(&mut self.first, messages, trail, 0, self.tables.count)
        } else {
            act_at(&mut self.second, messages, trail, 1, self.tables.count)
        }
    }

    pub(crate) fn deliver_step(
        &mut self,
        messages: &mut List<Message>,
        trail: &mut List<Entry>,
        place: u32,
    ) -> Result<(), Fault>
        ensures { Stepped A.Device B.Device self.old messages.old trail.old
            (Deliver place) (done_answer result) self.new messages.new trail.new }
    {
        self.check_fit()?;
        let place = place as usize;
        let message = pick(messages, place)?;
        self.reach(messages, trail, place, message)
    }

    pub(crate) fn poll_step(
        &mut self,
        messages: &mut List<Message>,
        trail: &mut List<Entry>,
        processor: u32,
    ) -> Result<Option<u32>, Fault>
        ensures { Stepped A.Device B.Device self.old messages.old trail.old
            (Poll processor) result self.new messages.new trail.new }
    {
        let state = self.processor(processor)?;
        let reaction = state.poll();
        self.commit_processor(messages, trail, None, processor, reaction)
    }
}
