//! A board whose slots go by ticket: LDio gives a ticket, collect and give up spend it, and a refusal hands it back.
//! All other calls are those by number.

ghost use Rattle.std.specs.Prelude.{◌≡◌, IfOk, IfErr};
ghost use Rattle.coherence.specs.declared.call.Call.TheVariants.{Load, Store, Request, LdIo, StIo};
ghost use Rattle.coherence.specs.declared.call.Call.TheVariants.{Act, Deliver, Poll};
ghost use Rattle.list.specs.Contents.{contents};
ghost use Rattle.raster.specs.Answers.{word_answer, done_answer, ticket_answer};
ghost use Rattle.raster.specs.Answers.{collect_by, give_up_by, refusal, source_answer};
ghost use Rattle.raster.specs.Calls.{ByTicket};

use crate::board::Board;
use coherence::fault::Fault;
use device::meaning::Device;
use list::List;
use message::message::Message;
use trail::entry::Entry;

/// A ticket for an accepted LDio, held for the word that a device was asked for. It cannot be let go: only collecting
/// or giving up spends it.
#[derive(Debug, PartialEq, Eq)]
pub struct Ticket {
    pub(crate) processor: u32,
    pub(crate) device: u32,
}

/// A board whose slots go by ticket.
#[derive(Drop)]
pub struct Ticketed<A, B> {
    pub(crate) board: Board<A, B>,
}

impl Ticket {
    // A refusal hands the ticket back.
    fn spent_by<R>(self, answer: Result<R, Fault>) -> Result<R, (Fault, Ticket)>
        ensures answer { refusal result ≡ answer }
        ensures ticket { IfErr result (λ e. e.1 ≡ self) }
    {
        match answer {
            Err(fault) => Err((fault, self)),
            Ok(answer) => {
                let Ticket {
                    processor: _,
                    device: _,
                } = self;
                Ok(answer)
            }
        }
    }
}

// Call by call, and not by `Deref`: a board that is lent out gives LDio without a ticket.
impl<A: Device, B: Device> Ticketed<A, B> {
    /// From now on slots go by ticket. A slot that was taken by number before has no ticket.
    pub fn new(board: Board<A, B>) -> Ticketed<A, B>
        ensures { result.board ≡ board }
    {
        Ticketed { board }
    }

    /// Asks a device for one of its words; the ticket is for that word.
    pub fn ldio(
        &mut self,
        messages: &mut List<Message>,
        trail: &mut List<Entry>,
        processor: u32,
        device: u32,
        word: u32,
    ) -> Result<Ticket, Fault>
        ensures call { ByTicket A.Device B.Device self.old messages.old trail.old
            (LdIo processor device word) (ticket_answer result) self.new messages.new trail.new }
        ensures ticket { IfOk result (λ t. (t.processor ≡ processor) × (t.device ≡ device)) }
    {
        self.board.ldio(messages, trail, processor, device, word)?;
        Ok(Ticket { processor, device })
    }

    /// Tells the word that came, and spends the ticket.
    pub fn collect(
        &mut self,
        messages: &mut List<Message>,
        trail: &mut List<Entry>,
        ticket: Ticket,
    ) -> Result<u32, (Fault, Ticket)>
        ensures call { ByTicket A.Device B.Device self.old messages.old trail.old
            (collect_by ticket) (word_answer (refusal result)) self.new messages.new trail.new }
        ensures ticket { IfErr result (λ e. e.1 ≡ ticket) }
    {
        let answer = self
            .board
            .collect(messages, trail, ticket.processor, ticket.device);
        ticket.spent_by(answer)
    }

    /// Lets the word go, and spends the ticket.
    pub fn give_up(
        &mut self,
        messages: &mut List<Message>,
        trail: &mut List<Entry>,
        ticket: Ticket,
    ) -> Result<(), (Fault, Ticket)>
        ensures call { ByTicket A.Device B.Device self.old messages.old trail.old
            (give_up_by ticket) (done_answer (refusal result)) self.new messages.new trail.new }
        ensures ticket { IfErr result (λ e. e.1 ≡ ticket) }
    {
        let answer = self
            .board
            .give_up(messages, trail, ticket.processor, ticket.device);
        ticket.spent_by(answer)
    }

    /// As `Board::load`.
    pub fn load(
        &mut self,
        messages: &mut List<Message>,
        trail: &mut List<Entry>,
        processor: u32,
        word: u32,
    ) -> Result<u32, Fault>
        ensures { ByTicket A.Device B.Device self.old messages.old trail.old
            (Load processor word) (word_answer result) self.new messages.new trail.new }
    {
        self.board.load(messages, trail, processor, word)
    }

    /// As `Board::store`.
    pub fn store(
        &mut self,
        messages: &mut List<Message>,
        trail: &mut List<Entry>,
        processor: u32,
        word: u32,
        value: u32,
    ) -> Result<(), Fault>
        ensures { ByTicket A.Device B.Device self.old messages.old trail.old
            (Store processor word value) (done_answer result) self.new messages.new trail.new }
    {
        self.board.store(messages, trail, processor, word, value)
    }

    /// As `Board::request`.
    pub fn request(
        &mut self,
        messages: &mut List<Message>,
        trail: &mut List<Entry>,
        processor: u32,
        block: u32,
        kind: u32,
    ) -> Result<(), Fault>
        ensures { ByTicket A.Device B.Device self.old messages.old trail.old
            (Request processor block kind) (done_answer result) self.new messages.new trail.new }
    {
        self.board.request(messages, trail, processor, block, kind)
    }

    /// As `Board::stio`.
    pub fn stio(
        &mut self,
        messages: &mut List<Message>,
        trail: &mut List<Entry>,
        processor: u32,
        device: u32,
        word: u32,
        value: u32,
    ) -> Result<(), Fault>
        ensures { ByTicket A.Device B.Device self.old messages.old trail.old
            (StIo processor device word value) (done_answer result) self.new messages.new trail.new }
    {
        self.board
            .stio(messages, trail, processor, device, word, value)
    }

    /// As `Board::act`.
    pub fn act(
        &mut self,
        messages: &mut List<Message>,
        trail: &mut List<Entry>,
        device: u32,
    ) -> Result<(), Fault>
        ensures { ByTicket A.Device B.Device self.old messages.old trail.old
            (Act device) (done_answer result) self.new messages.new trail.new }
    {
        self.board.act(messages, trail, device)
    }

    /// As `Board::deliver`.
    pub fn deliver(
        &mut self,
        messages: &mut List<Message>,
        trail: &mut List<Entry>,
        place: u32,
    ) -> Result<(), Fault>
        ensures { ByTicket A.Device B.Device self.old messages.old trail.old
            (Deliver place) (done_answer result) self.new messages.new trail.new }
    {
        self.board.deliver(messages, trail, place)
    }

    /// As `Board::poll`.
    pub fn poll(
        &mut self,
        messages: &mut List<Message>,
        trail: &mut List<Entry>,
        processor: u32,
    ) -> Result<Option<u32>, Fault>
        ensures { ByTicket A.Device B.Device self.old messages.old trail.old
            (Poll processor) result self.new messages.new trail.new }
    {
        self.board.poll(messages, trail, processor)
    }

    /// As `Board::source`.
    pub fn source(
        &self,
        trail: &List<Entry>,
        entry: usize,
        word: u32,
    ) -> Result<Option<(usize, u32)>, Fault>
        ensures { result ≡ source_answer self.now.board.tables.fit (contents trail.now) «entry» word }
    {
        self.board.source(trail, entry, word)
    }
}
