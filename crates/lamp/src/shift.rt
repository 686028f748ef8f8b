//! A shift of three processors at two banks of lamps. Each phase says in which world it begins and in which it ends, so
//! that what its calls answer is known, and every ticket is spent.

ghost use Rattle.std.specs.Prelude.{◌≡◌};
ghost use Rattle.lamp.specs.Banks.{lamps};
ghost use Rattle.lamp.specs.Shifts.{reached, slot_taken, too_early};
ghost use Rattle.list.specs.Contents.{room};
ghost use Rattle.raster.specs.Boards.{world};

use crate::bank::Bank;
use crate::tickets::{ask, ask_in_vain, collect, collect_in_vain, give_up};
use coherence::fault::Fault;
use list::List;
use message::message::Message;
use raster::board::Board;
use raster::ticket::{Ticket, Ticketed};
use trail::entry::Entry;

/// What the shift's calls answered.
#[derive(Clone, Copy)]
pub struct Report {
    /// Why processor 1 could not ask for a second word of one device.
    pub again: Fault,
    /// Why processor 0 could not collect at first.
    pub early: Fault,
    /// The words that processors 0 and 2 got.
    pub first: u32,
    pub third: u32,
}

/// The board as the shift begins: three processors and two banks of lamps. Both lists are emptied.
pub fn start(messages: &mut List<Message>, trail: &mut List<Entry>) -> Ticketed<Bank, Bank>
    requires { (room messages.old ≡ 16) × (room trail.old ≡ 16) }
    ensures { world lamps lamps result.board messages.new trail.new ≡ reached 0 }
{
    let first = Bank::new([10, 11, 12, 13]);
    let second = Bank::new([20, 21, 22, 23]);
    Ticketed::new(Board::make(3, 0, &[0; 64], first, second, messages, trail))
}

// Processor 0 is refused while its word is under way, and gets it once it came.
fn first_reads(
    board: &mut Ticketed<Bank, Bank>,
    messages: &mut List<Message>,
    trail: &mut List<Entry>,
    ticket: Ticket,
) -> (Fault, u32)
    requires world { world lamps lamps board.old.board messages.old trail.old ≡ reached 5 }
    requires ticket { (ticket.processor ≡ 0) × (ticket.device ≡ 0) }
    ensures world { world lamps lamps board.new.board messages.new trail.new ≡ reached 10 }
    ensures answers { (result.0 ≡ too_early 0) × (result.1 ≡ 7) }
{
    let _ = board.deliver(messages, trail, 0);
    let _ = board.deliver(messages, trail, 0);
    let (early, ticket) = collect_in_vain(board, messages, trail, ticket);
    let _ = board.deliver(messages, trail, 2);
    (early, collect(board, messages, trail, ticket))
}

// Processor 1 gives its word up before the device is asked for it.
fn second_gives_up(
    board: &mut Ticketed<Bank, Bank>,
    messages: &mut List<Message>,
    trail: &mut List<Entry>,
    ticket: Ticket,
)
    requires world { world lamps lamps board.old.board messages.old trail.old ≡ reached 10 }
    requires ticket { (ticket.processor ≡ 1) × (ticket.device ≡ 0) }
    ensures { world lamps lamps board.new.board messages.new trail.new ≡ reached 13 }
{
    give_up(board, messages, trail, ticket);
    let _ = board.deliver(messages, trail, 0);
    let _ = board.deliver(messages, trail, 1);
}

// Processor 2 waits for its word.
fn third_reads(
    board: &mut Ticketed<Bank, Bank>,
    messages: &mut List<Message>,
    trail: &mut List<Entry>,
    ticket: Ticket,
) -> u32
    requires world { world lamps lamps board.old.board messages.old trail.old ≡ reached 13 }
    requires ticket { (ticket.processor ≡ 2) × (ticket.device ≡ 1) }
    ensures world { world lamps lamps board.new.board messages.new trail.new ≡ reached 16 }
    ensures answers { result ≡ 23 }
{
    let _ = board.deliver(messages, trail, 0);
    let _ = board.deliver(messages, trail, 0);
    collect(board, messages, trail, ticket)
}

/// The whole shift: processor 0 lights lamp 1 of bank 0, each processor asks for a lamp, and processor 1 asks once more in
/// vain; then the words are read or given up.
pub fn work(
    board: &mut Ticketed<Bank, Bank>,
    messages: &mut List<Message>,
    trail: &mut List<Entry>,
) -> Report
    requires { world lamps lamps board.old.board messages.old trail.old ≡ reached 0 }
    ensures world { world lamps lamps board.new.board messages.new trail.new ≡ reached 16 }
    ensures answers { result ≡ record { again = slot_taken 0; early = too_early 0; first = 7; third = 23 } }
{
    let _ = board.stio(messages, trail, 0, 0, 1, 7);
    let first = ask(board, messages, trail, 0, 0, 1);
    let second = ask(board, messages, trail, 1, 0, 2);
    let third = ask(board, messages, trail, 2, 1, 3);
    let again = ask_in_vain(board, messages, trail, 1, 0, 0);
    let (early, first) = first_reads(board, messages, trail, first);
    second_gives_up(board, messages, trail, second);
    let third = third_reads(board, messages, trail, third);
    Report {
        again,
        early,
        first,
        third,
    }
}
