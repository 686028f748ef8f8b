//! What a reaction leaves on the two lists: the message that it answers goes out, what it sends and does comes in.

ghost use Rattle.std.specs.Prelude.{◌≡◌, ◌+◌, ◌≤◌, ◌++◌, length, if◌then◌else◌};
ghost use Rattle.list.specs.Contents.{contents, room};
ghost use Rattle.message.specs.Reactions.{sent, sent_count};
ghost use Rattle.std.specs.Option.{option_to_list};
ghost use Rattle.raster.specs.Lists.{lists, left, room_for, posted};

use coherence::fault::{BoardFault, Fault, NetworkFault};
use list::List;
use message::message::Message;
use message::reaction::Outbox;
use trail::entry::Entry;

// How many messages wait once the one at `taken` is out.
fn waiting(messages: &List<Message>, taken: Option<usize>) -> usize
    ensures { result ≡ length (left (contents messages.now) taken) }
{
    match taken {
        Some(place) if place < messages.len() => messages.len() - 1,
        _ => messages.len(),
    }
}

// Whether there is room for so many messages, and for an entry if one comes, once the message at `taken` is out.
pub(crate) fn check_room(
    messages: &List<Message>,
    trail: &List<Entry>,
    taken: Option<usize>,
    sends: usize,
    enters: bool,
) -> Result<(), Fault>
    ensures { result ≡ room_for (lists messages.now trail.now) taken sends (if enters then 1 else 0) (Ok tt) }
{
    let waiting = waiting(messages, taken);
    let capacity = messages.capacity();
    if waiting > capacity || sends > capacity - waiting {
        return Err(Fault::Network(NetworkFault::MessagesFull(capacity)));
    }
    if trail.len() == trail.capacity() && enters {
        return Err(Fault::Board(BoardFault::TrailFull(trail.capacity())));
    }
    Ok(())
}

// Adds what is sent, in its order.
fn send_all(messages: &mut List<Message>, outbox: Outbox)
    requires { length (contents messages.old) + sent_count outbox ≤ room messages.old }
    ensures contents { contents messages.new ≡ contents messages.old ++ sent outbox }
    ensures capacity { room messages.new ≡ room messages.old }
{
    // Not by `flatten`: by the places, of which the loop's invariant speaks.
    for message in &outbox.at {
        if let Some(message) = message {
            let _ = messages.push(*message);
        }
    }
}

// Adds the operation that was done, if any.
fn enter(trail: &mut List<Entry>, entry: Option<Entry>)
    requires { length (contents trail.old) + length (option_to_list «entry») ≤ room trail.old }
    ensures contents { contents trail.new ≡ contents trail.old ++ option_to_list «entry» }
    ensures capacity { room trail.new ≡ room trail.old }
{
    if let Some(entry) = entry {
        let _ = trail.push(entry);
    }
}

/// Takes the delivered message out, and adds what the reaction sends and does.
pub(crate) fn post(
    messages: &mut List<Message>,
    trail: &mut List<Entry>,
    taken: Option<usize>,
    outbox: Outbox,
    entry: Option<Entry>,
)
    requires messages { length (left (contents messages.old) taken) + sent_count outbox ≤ room messages.old }
    requires trail { length (contents trail.old) + length (option_to_list «entry») ≤ room trail.old }
    ensures { lists messages.new trail.new ≡ posted (lists messages.old trail.old) taken outbox «entry» }
{
    if let Some(place) = taken {
        let _ = messages.remove(place);
    }
    send_all(messages, outbox);
    enter(trail, entry);
}
