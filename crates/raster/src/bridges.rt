//! What is done at one bridge, of whichever device: its wish, or a message that reached it.

ghost use Rattle.raster.specs.Answers.{done_answer};
ghost use Rattle.raster.specs.Commits.{WishDone, MessageDone};

use crate::commit::commit_plan;
use bridge::state::Bridge;
use coherence::fault::{Fault, NetworkFault};
use device::meaning::Device;
use list::List;
use message::message::Message;
use trail::entry::Entry;

// The wish of the device at one bridge.
#[tactic(auto, unfolding(crate::specs::Commits::planned))]
pub(crate) fn act_at<D: Device>(
    bridge: &mut Bridge<D>,
    messages: &mut List<Message>,
    trail: &mut List<Entry>,
    number: u8,
    processors: u32,
) -> Result<(), Fault>
    ensures { WishDone D.Device number bridge.old messages.old trail.old
        processors (done_answer result) bridge.new messages.new trail.new }
{
    let plan = bridge.act(number, processors)?;
    commit_plan(bridge, messages, trail, None, number, plan)
}

// The message reaches one bridge.
#[tactic(auto, unfolding(crate::specs::Commits::planned))]
pub(crate) fn reach_at<D: Device>(
    bridge: &mut Bridge<D>,
    messages: &mut List<Message>,
    trail: &mut List<Entry>,
    number: u8,
    place: usize,
    message: Message<u32>,
) -> Result<(), Fault>
    ensures { MessageDone D.Device number bridge.old messages.old trail.old
        place message (done_answer result) bridge.new messages.new trail.new }
{
    let plan = bridge.receive(number, message);
    let plan = plan.ok_or(NetworkFault::NoRule(place))?;
    commit_plan(bridge, messages, trail, Some(place), number, plan)
}
