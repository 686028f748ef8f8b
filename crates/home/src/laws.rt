//! What a home keeps, whatever it is told: each law is the contract of a function that does nothing.

ghost use Rattle.home.specs.Cases.{WorkedExchange};
ghost use Rattle.home.specs.Laws.{RefusesWhileBusy, NacksGiveBack, BusyUntilTaken, TakenFrees, OtherKindsHaveNoRule};
ghost use Rattle.home.specs.Laws.{ClockNeverGoesBack, FinishesAboveAll, HearsAll, RepliesAboveAll, WordsStay};
ghost use Rattle.home.specs.Laws.{GrantsToSharers, HomesServeAsAsked, TakenIsPassed, HoldersAreAsked};

/// A home that is not free answers every request with NACK, and changes nothing.
pub fn busy_homes_refuse()
    ensures { RefusesWhileBusy }
{}

/// A NACK gives back the request with its words, clock and number, and changes nothing.
#[tactic(auto, using(crate::proofs::Back::nacks_give_back))]
pub fn nacks_give_back()
    ensures { NacksGiveBack }
{}

/// A busy home is free again by TAKEN from its requester, and by nothing else.
pub fn homes_stay_busy_until_taken()
    ensures only { BusyUntilTaken }
    ensures then { TakenFrees }
{}

/// A device's TAKEN takes the home above what it told the device; a processor's moves no clock.
pub fn taken_is_passed()
    ensures { TakenIsPassed }
{}

/// An owner is asked whatever the request, and for one that does more than read each other holder is.
#[tactic(auto, using(crate::proofs::Holders::holders_are_asked))]
pub fn holders_are_asked()
    ensures { HoldersAreAsked }
{}

/// There is no rule for what is no request, acknowledgement or TAKEN.
pub fn other_kinds_have_no_rule()
    ensures { OtherKindsHaveNoRule }
{}

/// No message sets a home's clock back.
#[tactic(auto, using(crate::proofs::Keeps::clock_never_goes_back))]
pub fn clocks_never_go_back()
    ensures { ClockNeverGoesBack }
{}

/// What is heard is kept until the home finishes, and then it passes once, above all of it.
pub fn homes_finish_above_all()
    ensures heard { HearsAll }
    ensures finished { FinishesAboveAll }
{}

/// Operation and reply stand above all that the home was told before them.
#[tactic(auto, using(crate::proofs::Above::replies_above_all))]
pub fn replies_are_above_all()
    ensures { RepliesAboveAll }
{}

/// Only an owner's words and a device's write change a home's words.
#[tactic(auto, using(crate::proofs::Keeps::words_stay))]
pub fn words_stay()
    ensures { WordsStay }
{}

/// Ownership is granted only to one that shares.
pub fn grants_go_to_sharers()
    ensures { GrantsToSharers }
{}

/// An owner is asked for its words before another reads them.
pub fn owners_give_their_words()
    ensures { WorkedExchange }
{}

/// STblk writes the words of its request; LDblk gets the words of the home, and the reply tells them.
pub fn homes_serve_as_asked()
    ensures { HomesServeAsAsked }
{}
