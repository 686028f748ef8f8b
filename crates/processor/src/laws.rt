//! What holds of every reaction of a processor, whatever its state and whatever came.

ghost use Rattle.processor.specs.Cases.{WorkedCases};
ghost use Rattle.processor.specs.Laws.{ClocksGoOn, EntriesAreStamped, AskedLinesGiveWay, OnlyStoresChangeWords};
ghost use Rattle.processor.specs.Laws.{NackOnlyEnds, GivenUpSlotsStayTaken, OwnOperationsWait, ToldWordsAreTrue};
ghost use Rattle.processor.specs.Laws.{ProcessorsKeepToTheirPart, ProcessorsWriteAsAsked, ToldOnce, RequestsHavePlaces};
ghost use Rattle.processor.specs.Laws.{RefusedInOrder};

/// No reaction takes the clock back, and one that does an operation takes it on; after a message whose
/// clock is passed, the global number is above it.
#[tactic(auto, using(crate::proofs::Stamping::clocks_go_on))]
pub fn clocks_go_on()
    ensures { ClocksGoOn }
{}

/// An operation is stamped with the clock after it, and carries its party's number.
#[tactic(auto, using(crate::proofs::Stamping::entries_are_stamped))]
pub fn entries_are_stamped()
    ensures { EntriesAreStamped }
{}

/// INV leaves a line I, and DOWN leaves it S with its words.
pub fn asked_lines_give_way()
    ensures { AskedLinesGiveWay }
{}

/// A line that is held before and after a reaction keeps its words, unless the call stores to its block.
#[tactic(auto, using(crate::proofs::Copies::only_stores_change_words))]
pub fn only_stores_change_words()
    ensures { OnlyStoresChangeWords }
{}

/// NACK ends the request and does nothing else.
pub fn nack_only_ends()
    ensures { NackOnlyEnds }
{}

/// A slot that was given up stays taken until VALUE comes.
#[tactic(auto, using(crate::proofs::Fetching::given_up_slots_stay_taken))]
pub fn given_up_slots_stay_taken()
    ensures { GivenUpSlotsStayTaken }
{}

/// No LD or ST is done while the word of an own LDio is on its way.
pub fn own_operations_wait()
    ensures { OwnOperationsWait }
{}

/// What load, poll and collect tell is what was entered, stored or brought.
#[tactic(auto, using(crate::proofs::Fetching::told_words_are_true))]
pub fn told_words_are_true()
    ensures { ToldWordsAreTrue }
{}

/// A kind that is not a processor's has no rule, and no reaction sends more than one message.
pub fn processors_keep_to_their_part()
    ensures { ProcessorsKeepToTheirPart }
{}

/// Worked runs of one processor come out as they should.
pub fn worked_cases_come_out()
    ensures { WorkedCases }
{}

/// A store writes the value of its call, Wio carries that of an STio, and an interrupt has the word that came.
pub fn processors_write_as_asked()
    ensures { ProcessorsWriteAsAsked }
{}

/// A second poll tells nothing, and a collected slot is free again.
pub fn words_are_told_once()
    ensures { ToldOnce }
{}

/// A request goes out only where it has its place: GETS and GETX without a copy, UPG at a shared one, WB at one's own.
pub fn requests_have_places()
    ensures { RequestsHavePlaces }
{}

/// Of two things that stand in the way of a call, the first in its order is told.
pub fn refusals_come_in_order()
    ensures { RefusedInOrder }
{}
