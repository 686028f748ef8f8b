//! The order of the network: between a processor and a device, each way, the oldest message goes first.

ghost use Rattle.std.specs.Prelude.{◌≡◌};
ghost use Rattle.message.specs.Pairs.{is_pair, goes_alike, first_alike, oldest_of_pair};

use crate::message::Message;
use crate::node::{is_device, is_processor};

/// Whether what goes from the sender to the receiver goes oldest first.
pub fn goes_in_order(sender: u32, receiver: u32) -> bool
    ensures { result ≡ is_pair sender receiver }
{
    is_processor(sender) && is_device(receiver) || is_device(sender) && is_processor(receiver)
}

fn goes_alike(first: Message, second: Message) -> bool
    ensures { result ≡ goes_alike first second }
{
    first.sender == second.sender && first.receiver == second.receiver
}

// The place of the first that goes the way of `message`.
fn first_alike(messages: &[Message], message: Message) -> Option<usize>
    ensures { result ≡ first_alike message messages.now 0 }
{
    // Not by `position`: what it says would need another function between.
    for (place, other) in messages.iter().enumerate() {
        if goes_alike(*other, message) {
            return Some(place);
        }
    }
    None
}

/// The place of the oldest message that has to go before the one at `place`, if there is one.
pub fn oldest_of_pair(messages: &[Message], place: usize) -> Option<usize>
    ensures { result ≡ oldest_of_pair messages.now place }
{
    let message = messages.get(place).copied()?;
    if !goes_in_order(message.sender, message.receiver) {
        return None;
    }
    first_alike(&messages[..place], message)
}
