//! What follows from the table of forms and from the order of the network: each law is the contract of a
//! function that does nothing.

ghost use Rattle.message.specs.Laws.{NumbersTellKinds, RequestsHaveNumbers, WellFormedAreSound, WellFormedHaveEnds};
ghost use Rattle.message.specs.Laws.{OldestGoesFirst, OthersGo};

/// No two kinds have one number.
#[tactic(auto, using(crate::proofs::Numbering::numbers_tell_kinds))]
pub fn numbers_tell_kinds()
    ensures { NumbersTellKinds }
{}

/// A request is asked for by the number of its kind.
pub fn requests_have_numbers()
    ensures { RequestsHaveNumbers }
{}

/// A well-formed message has its numbers within their end, at a home's end the home of its block, and 0 where its kind
/// carries nothing.
#[tactic(auto, using(crate::proofs::Soundness::well_formed_are_sound))]
pub fn well_formed_messages_are_sound()
    ensures { WellFormedAreSound }
{}

/// A well-formed message goes to a word, or comes from one, that its device has; an interrupt to the processor at its place.
#[tactic(auto, using(crate::proofs::Soundness::well_formed_have_ends))]
pub fn well_formed_messages_have_ends()
    ensures { WellFormedHaveEnds }
{}

/// A message waits for another exactly if that is the oldest of its pair.
pub fn the_oldest_goes_first()
    ensures waits { OldestGoesFirst }
    ensures goes { OthersGo }
{}
