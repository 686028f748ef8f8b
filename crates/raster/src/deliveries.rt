//! Deliveries: which message, and what it does at its receiver, the one node that reacts.

ghost use Rattle.std.specs.Prelude.{◌≡◌, true, length, is_some, IfSome, IfOk, None, OnOk, nat_lt, slice_index_or};
ghost use Rattle.list.specs.Contents.{contents};
ghost use Rattle.message.specs.Checks.{checked, well_formed};
ghost use Rattle.message.specs.Messages.{no_message};
ghost use Rattle.message.specs.Nodes.{node_numbered};
ghost use Rattle.message.specs.Pairs.{oldest_of_pair};
ghost use Rattle.raster.specs.Answers.{done_answer};
ghost use Rattle.raster.specs.Boards.{board_figures};
ghost use Rattle.raster.specs.Calls.{Delivered};
ghost use Rattle.raster.specs.Picking.{picked, There};

use crate::board::Board;
use crate::bridges::reach_at;
use coherence::fault::{BoardFault, Fault, NetworkFault};
use device::meaning::Device;
use list::List;
use message::message::Message;
use message::node::Node;
use message::pair::oldest_of_pair;
use trail::entry::Entry;

// The message at a place, if no older one of its pair waits.
pub(crate) fn pick(messages: &List<Message>, place: usize) -> Result<Message, Fault>
    ensures value { result ≡ picked (contents messages.now) place }
    ensures inside { OnOk result (nat_lt place (length (contents messages.now)) ≡ true) }
    ensures turn { OnOk result (oldest_of_pair (contents messages.now) place ≡ None) }
    ensures same { IfOk result (λ m. m ≡ slice_index_or (contents messages.now) place no_message) }
{
    let messages = messages.records();
    let message = messages.get(place).copied().ok_or(BoardFault::Argument(1))?;
    if let Some(oldest) = oldest_of_pair(messages, place) {
        return Err(Fault::Network(NetworkFault::OlderWaits(oldest)));
    }
    Ok(message)
}

// The node that a message goes to.
fn receiver(message: Message<u32>) -> Option<Node>
    ensures value { result ≡ node_numbered message.receiver }
    ensures there { There result }
{
    Node::numbered(message.receiver)
}

impl<A: Device, B: Device> Board<A, B> {
    // The message with its clock at rest, if it is well formed on this board.
    fn formed(&self, message: Message) -> Option<Message<u32>>
        ensures value { result ≡ checked (board_figures A.Device B.Device self.now) message }
        ensures formed { is_some result ≡ well_formed (board_figures A.Device B.Device self.now) message }
        ensures same { IfSome result (λ m. m ≡ message) }
    {
        message.checked(self.figures())
    }

    // The message reaches its receiver, if it is well formed on this board.
    pub(crate) fn reach(
        &mut self,
        messages: &mut List<Message>,
        trail: &mut List<Entry>,
        place: usize,
        message: Message,
    ) -> Result<(), Fault>
        ensures { Delivered A.Device B.Device self.old messages.old trail.old
            place message (done_answer result) self.new messages.new trail.new }
    {
        let no_rule = NetworkFault::NoRule(place);
        let message = self.formed(message).ok_or(no_rule)?;
        match receiver(message).ok_or(no_rule)? {
            Node::Processor(processor) => {
                let state = self.tables.processors[processor as usize];
                let reaction = state.receive(processor, message).ok_or(no_rule)?;
                let _ = self.commit_processor(messages, trail, Some(place), processor, reaction)?;
                Ok(())
            }
            Node::Device(0) => reach_at(&mut self.first, messages, trail, 0, place, message),
            Node::Device(_) => reach_at(&mut self.second, messages, trail, 1, place, message),
            Node::Home(block) => {
                let state = self.tables.homes[block as usize];
                let reaction = state.receive(block, message).ok_or(no_rule)?;
                let _ = self.commit_home(messages, trail, Some(place), block, reaction)?;
                Ok(())
            }
        }
    }
}
