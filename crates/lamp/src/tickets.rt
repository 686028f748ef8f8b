//! Calls by ticket whose outcome is known beforehand, so that no ticket is left over where none can be spent.

ghost use Rattle.std.specs.Prelude.{◌≡◌, true, false, Some, None, Ok, Err};
ghost use Rattle.coherence.specs.declared.call.Call.TheVariants.{LdIo};
ghost use Rattle.lamp.specs.Shifts.{accepted_by};
ghost use Rattle.raster.specs.Answers.{collect_by, give_up_by};
ghost use Rattle.raster.specs.Calls.{Stepped};

use coherence::fault::Fault;
use device::meaning::Device;
use list::List;
use message::message::Message;
use raster::ticket::{Ticket, Ticketed};
use trail::entry::Entry;

/// Asks a device for a word, where the slot is free.
pub fn ask<A: Device, B: Device>(
    board: &mut Ticketed<A, B>,
    messages: &mut List<Message>,
    trail: &mut List<Entry>,
    processor: u32,
    device: u32,
    word: u32,
) -> Ticket
    requires { accepted_by A.Device B.Device board.old messages.old trail.old (LdIo processor device word) ≡ true }
    ensures step { Stepped A.Device B.Device board.old.board messages.old trail.old
        (LdIo processor device word) (Ok None) board.new.board messages.new trail.new }
    ensures ticket { (result.processor ≡ processor) × (result.device ≡ device) }
{
    match board.ldio(messages, trail, processor, device, word) {
        Ok(ticket) => ticket,
        Err(_) => unreachable!(),
    }
}

/// Asks a device for a word, where the slot is taken.
pub fn ask_in_vain<A: Device, B: Device>(
    board: &mut Ticketed<A, B>,
    messages: &mut List<Message>,
    trail: &mut List<Entry>,
    processor: u32,
    device: u32,
    word: u32,
) -> Fault
    requires { accepted_by A.Device B.Device board.old messages.old trail.old (LdIo processor device word) ≡ false }
    ensures { Stepped A.Device B.Device board.old.board messages.old trail.old
        (LdIo processor device word) (Err result) board.new.board messages.new trail.new }
{
    match board.ldio(messages, trail, processor, device, word) {
        Ok(_) => unreachable!(),
        Err(fault) => fault,
    }
}

/// Collects a word that came.
pub fn collect<A: Device, B: Device>(
    board: &mut Ticketed<A, B>,
    messages: &mut List<Message>,
    trail: &mut List<Entry>,
    ticket: Ticket,
) -> u32
    requires { accepted_by A.Device B.Device board.old messages.old trail.old (collect_by ticket) ≡ true }
    ensures { Stepped A.Device B.Device board.old.board messages.old trail.old
        (collect_by ticket) (Ok (Some result)) board.new.board messages.new trail.new }
{
    match board.collect(messages, trail, ticket) {
        Ok(word) => word,
        Err(_) => unreachable!(),
    }
}

/// Tries to collect a word that has not come, and gets the ticket back.
pub fn collect_in_vain<A: Device, B: Device>(
    board: &mut Ticketed<A, B>,
    messages: &mut List<Message>,
    trail: &mut List<Entry>,
    ticket: Ticket,
) -> (Fault, Ticket)
    requires { accepted_by A.Device B.Device board.old messages.old trail.old (collect_by ticket) ≡ false }
    ensures step { Stepped A.Device B.Device board.old.board messages.old trail.old
        (collect_by ticket) (Err result.0) board.new.board messages.new trail.new }
    ensures ticket { result.1 ≡ ticket }
{
    match board.collect(messages, trail, ticket) {
        Ok(_) => unreachable!(),
        Err(refused) => refused,
    }
}

/// Gives up a word that is awaited.
pub fn give_up<A: Device, B: Device>(
    board: &mut Ticketed<A, B>,
    messages: &mut List<Message>,
    trail: &mut List<Entry>,
    ticket: Ticket,
)
    requires { accepted_by A.Device B.Device board.old messages.old trail.old (give_up_by ticket) ≡ true }
    ensures { Stepped A.Device B.Device board.old.board messages.old trail.old
        (give_up_by ticket) (Ok None) board.new.board messages.new trail.new }
{
    match board.give_up(messages, trail, ticket) {
        Ok(()) => (),
        Err(_) => unreachable!(),
    }
}
