//! Whole runs: one making, and then calls in turn.

ghost use Rattle.std.specs.Prelude.{◌≡◌, slice_set};
ghost use Rattle.raster.specs.Boards.{Ran};
ghost use Rattle.raster.specs.Calls.{Called};

use crate::board::Board;
use coherence::call::Call;
use coherence::fault::Fault;
use device::meaning::Device;
use list::List;
use message::message::Message;
use trail::entry::Entry;

// The answer is put at a place, if there is one.
#[tactic(auto, using(std::proofs::lemmas::List::set_past))]
fn put(answers: &mut [Result<Option<u32>, Fault>], place: usize, answer: Result<Option<u32>, Fault>)
    ensures { answers.new ≡ slice_set answers.old place answer }
{
    // Not by `get_mut`: the place behind it was not proved to be the slice's.
    if place < answers.len() {
        answers[place] = answer;
    }
}

impl<A: Device, B: Device> Board<A, B> {
    /// Makes the calls in turn. As many answers are given as there are calls and places for them.
    pub fn call_all(
        &mut self,
        messages: &mut List<Message>,
        trail: &mut List<Entry>,
        calls: &[Call],
        answers: &mut [Result<Option<u32>, Fault>],
    )
        ensures { Called A.Device B.Device self.old messages.old trail.old
            calls.now answers.old answers.new self.new messages.new trail.new }
    {
        for (place, call) in calls.iter().enumerate() {
            let answer = self.call(messages, trail, *call);
            put(answers, place, answer);
        }
    }
}

/// Makes a board and then the calls in turn. As many answers are given as there are calls and places for them. The run,
/// whose history has that world, keeps the order promise.
pub fn run<A: Device, B: Device>(
    processors: u32,
    clock: u32,
    words: &[u32],
    first: A,
    second: B,
    messages: &mut List<Message>,
    trail: &mut List<Entry>,
    calls: &[Call],
    answers: &mut [Result<Option<u32>, Fault>],
) -> Board<A, B>
    ensures { Ran A.Device B.Device processors clock words.now first second messages.old trail.old
        calls.now answers.old answers.new result messages.new trail.new }
{
    let mut board = Board::make(processors, clock, words, first, second, messages, trail);
    board.call_all(messages, trail, calls, answers);
    board
}
