//! What a home does when a message reaches it.

ghost use Rattle.std.specs.Prelude.{◌≡◌, IfSome, None};
ghost use Rattle.home.specs.Reactions.{clock_after, words_after, finished_in, refused, ask_one, asks, asked, requested};
ghost use Rattle.home.specs.Reactions.{heard_in, acknowledged, clock_freed, taken, received};

use crate::directory::{Phase, Processors, Round, is_empty};
use crate::machine::Home;
use crate::plan::Plan;
use crate::request::Request;
use message::block::Block;
use message::kind::Kind;
use message::message::Message;
use message::node::is_device;
use message::reaction::{Outbox, Reaction};
use ordering::clock::Clock;
use ordering::operation::Words;

fn ask_one(kind: Kind, block: Block, holders: Processors, processor: u32) -> Option<Message>
    ensures { result ≡ ask_one kind block holders processor }
{
    holders.get(processor).then(|| Message::plain(kind, block.home(), processor, block.number()))
}

// In rising order of the processors.
fn asks(kind: Kind, block: Block, holders: Processors) -> Outbox
    ensures { result ≡ asks kind block holders }
{
    Outbox {
        at: [0, 1, 2, 3].map(|processor| ask_one(kind, block, holders, processor)),
    }
}

impl Home {
    // One passing of all that was heard; for a device then its operation.
    fn clock_after(self, round: Round) -> Clock<u64>
        ensures { result ≡ clock_after self.clock round }
    {
        if round.request.operation().is_some() {
            return self
                .clock
                .passed_and_counted(round.latest.max(round.request.clock));
        }
        self.clock.passed(round.latest)
    }

    fn words_after(self, request: Request) -> Words
        ensures { result ≡ words_after self.words request }
    {
        if request.kind == Kind::Wblk {
            return request.words;
        }
        self.words
    }

    // All who were asked are heard: the operation and the reply.
    fn finished(self, block: Block, round: Round) -> Reaction<Home<u64>>
        ensures { result ≡ finished_in self round block }
    {
        let request = round.request;
        let clock = self.clock_after(round);
        let words = self.words_after(request);
        let next = Home {
            clock,
            words,
            directory: self.directory.replied(request),
        };
        Reaction {
            entry: request.entry(block, words, clock),
            ..Reaction::sending(next, request.reply(block, words, clock.global))
        }
    }

    fn refused(self, block: Block, request: Request) -> Reaction<Home<u64>>
        ensures { result ≡ refused self block request }
    {
        Reaction::sending(self.into(), request.nack(block))
    }

    // The request is taken.
    fn asked(self, block: Block, request: Request, holders: Processors) -> Reaction<Home<u64>>
        ensures { result ≡ asked self block request holders }
    {
        if is_empty(holders) {
            return self.finished(block, Round::of(request, holders));
        }
        let next = Home {
            directory: self.directory.asking(request, holders),
            ..self
        };
        Reaction {
            sent: asks(request.asks_by(), block, holders),
            ..Reaction::quiet(next.into())
        }
    }

    fn requested(self, block: Block, request: Request) -> Option<Reaction<Home<u64>>>
        ensures value { result ≡ requested self block request }
        ensures quiet { IfSome result (λ x. x.answer ≡ None) }
    {
        let directory = self.directory;
        let plan = Plan::of(
            request.kind,
            directory.view(),
            directory.holders,
            request.requester,
        )?;
        Some(match plan {
            Plan::Refuse => self.refused(block, request),
            Plan::Ask(holders) => self.asked(block, request, holders),
        })
    }

    // Marked words are the block's words now.
    fn heard(self, round: Round, message: Message<u32>) -> Home
        ensures { result ≡ heard_in self round message }
    {
        let mut next = self;
        if message.exclusive {
            next.words = message.words;
        }
        next.directory = self.directory.heard(round, message.sender);
        next
    }

    fn acknowledged(self, block: Block, message: Message<u32>) -> Option<Reaction<Home<u64>>>
        ensures { result ≡ acknowledged self block message }
    {
        let Phase::Gathering(round) = self.directory.phase else {
            return None;
        };
        if !round.awaited.get(message.sender) {
            return None;
        }
        let round = round.heard(message.sender, message.clock);
        let next = self.heard(round, message);
        if is_empty(round.awaited) {
            return Some(next.finished(block, round));
        }
        Some(Reaction::quiet(next.into()))
    }

    // What the home does next is above what a device was told.
    fn clock_freed(self, sender: u32) -> Clock<u64>
        ensures { result ≡ clock_freed self.clock sender }
    {
        if is_device(sender) {
            return self.clock.passed(self.clock.global);
        }
        self.clock.into()
    }

    fn taken(self, sender: u32) -> Option<Reaction<Home<u64>>>
        ensures { result ≡ taken self sender }
    {
        let Phase::Replied(request) = self.directory.phase else {
            return None;
        };
        if request.requester != sender {
            return None;
        }
        Some(Reaction::quiet(Home {
            clock: self.clock_freed(sender),
            words: self.words,
            directory: self.directory.freed(),
        }))
    }

    /// What the home of the block does with a message, or none where there is no rule for it.
    pub fn receive(self, block: u32, message: Message<u32>) -> Option<Reaction<Home<u64>>>
        ensures value { result ≡ received self block message }
        ensures quiet { IfSome result (λ x. x.answer ≡ None) }
    {
        let block = Block::new(block)?;
        match message.kind {
            Kind::Ack => self.acknowledged(block, message),
            Kind::Taken => self.taken(message.sender),
            _ => self.requested(block, Request::from(message)),
        }
    }
}
