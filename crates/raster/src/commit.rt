//! Committing a reaction: where both lists have room and all numbers are within their end, the node, the lists and the
//! answer change together; else nothing does.

ghost use Rattle.std.specs.Prelude.{◌≡◌, ◌<◌, IfOk};
ghost use Rattle.bridge.specs.Deeds.{outcome_of};
ghost use Rattle.bridge.specs.States.{view};
ghost use Rattle.raster.specs.Answers.{done_answer};
ghost use Rattle.raster.specs.Calls.{ProcessorCommitted, HomeCommitted};
ghost use Rattle.raster.specs.Commits.{fitting, planned, reaction_committed, PlanDone};
ghost use Rattle.raster.specs.Lists.{lists};

use crate::board::Board;
use crate::post::{check_room, post};
use bridge::perform::Outcome;
use bridge::plan::Plan;
use bridge::state::Bridge;
use coherence::fault::{BoardFault, Fault};
use device::meaning::Device;
use home::machine::Home;
use list::List;
use message::message::Message;
use message::node::device_node;
use message::reaction::Reaction;
use ordering::clock::Settle;
use processor::state::Processor;
use trail::entry::Entry;

// The plan with its numbers at rest, where there is room for what it sends and does.
fn fitting(
    messages: &List<Message>,
    trail: &List<Entry>,
    taken: Option<usize>,
    number: u8,
    plan: Plan<u64>,
) -> Result<Plan, Fault>
    ensures { result ≡ fitting number plan taken (lists messages.now trail.now) }
{
    check_room(
        messages,
        trail,
        taken,
        plan.deed.sends(),
        plan.deed.enters(),
    )?;
    let node = device_node(number);
    Ok(plan.settled().ok_or(BoardFault::NumberEnds(node))?)
}

// What the lists get of a reaction of this node, and the node's state with its numbers at rest.
fn commit_reaction<W: Settle>(
    messages: &mut List<Message>,
    trail: &mut List<Entry>,
    taken: Option<usize>,
    node: u32,
    reaction: Reaction<W>,
) -> Result<W::Rest, Fault>
    ensures { (result, lists messages.new trail.new)
        ≡ reaction_committed W.settled node reaction taken (lists messages.old trail.old) }
{
    let Reaction {
        next,
        sent,
        entry,
        ..
    } = reaction;
    check_room(messages, trail, taken, sent.count(), entry.is_some())?;
    let rest = next.settled().ok_or(BoardFault::NumberEnds(node))?;
    post(messages, trail, taken, sent, entry);
    Ok(rest)
}

// Of what a plan leads to, a commit needs no more than this.
#[tactic(auto, unfolding(crate::specs::Commits::planned))]
fn perform<D: Device>(bridge: &mut Bridge<D>, number: u8, plan: Plan) -> Outcome
    ensures exit { view D.Device.state bridge.new
        ≡ (planned D.Device.meaning number (view D.Device.state bridge.old) plan).next }
    ensures outcome { result ≡ outcome_of (planned D.Device.meaning number (view D.Device.state bridge.old) plan) }
{
    bridge.perform(number, plan)
}

pub(crate) fn commit_plan<D: Device>(
    bridge: &mut Bridge<D>,
    messages: &mut List<Message>,
    trail: &mut List<Entry>,
    taken: Option<usize>,
    number: u8,
    plan: Plan<u64>,
) -> Result<(), Fault>
    ensures { PlanDone D.Device number bridge.old messages.old trail.old
        taken plan (done_answer result) bridge.new messages.new trail.new }
{
    let plan = fitting(messages, trail, taken, number, plan)?;
    let outcome = perform(bridge, number, plan);
    post(messages, trail, taken, outcome.sent, outcome.entry);
    Ok(())
}

impl<A: Device, B: Device> Board<A, B> {
    // Beside `commit_home`, since the two lie in different tables.
    /// `taken` is the place of the message that the processor reacts to, if it reacts to one.
    pub(crate) fn commit_processor(
        &mut self,
        messages: &mut List<Message>,
        trail: &mut List<Entry>,
        taken: Option<usize>,
        processor: u32,
        reaction: Reaction<Processor<u64>>,
    ) -> Result<Option<u32>, Fault>
        requires { processor < 4 }
        ensures step { ProcessorCommitted A.Device B.Device self.old messages.old trail.old
            taken processor reaction result self.new messages.new trail.new }
        ensures answer { IfOk result (λ a. a ≡ reaction.answer) }
    {
        let next = commit_reaction(messages, trail, taken, processor, reaction)?;
        self.tables.processors[processor as usize] = next;
        Ok(reaction.answer)
    }

    // A number and no `Block`, as in `Node`.
    pub(crate) fn commit_home(
        &mut self,
        messages: &mut List<Message>,
        trail: &mut List<Entry>,
        taken: Option<usize>,
        block: u32,
        reaction: Reaction<Home<u64>>,
    ) -> Result<Option<u32>, Fault>
        requires { block < 16 }
        ensures step { HomeCommitted A.Device B.Device self.old messages.old trail.old
            taken block reaction result self.new messages.new trail.new }
        ensures answer { IfOk result (λ a. a ≡ reaction.answer) }
    {
        let next = commit_reaction(messages, trail, taken, 16 + block, reaction)?;
        self.tables.homes[block as usize] = next;
        Ok(reaction.answer)
    }
}
