//! What holds of every reaction of a bridge, whatever its state, its device and what came.

ghost use Rattle.bridge.specs.Laws.{ClocksGoOn, EntriesAreStamped, OnlyStoresWrite, ValuesAreEntered};
ghost use Rattle.bridge.specs.Laws.{RefusedRequestsGoOutAgain, RequestsAreForBlocks, InterruptsWait, WishesAreJudged};
ghost use Rattle.bridge.specs.Laws.{BridgesKeepToTheirPart, PlansAreKept, BridgesWriteAsAsked};

use device::meaning::Device;

/// No reaction takes the clock back, and one that does an operation takes it on; after a message whose
/// clock is passed, the global number is above it.
pub fn clocks_go_on<D: Device>()
    ensures { ClocksGoOn D.Device.meaning }
{}

/// An operation is stamped with the clock after it, at the device's node, and carries its party's number.
pub fn entries_are_stamped<D: Device>()
    ensures { EntriesAreStamped D.Device.meaning }
{}

/// A reaction changes no word of the device but that of its STio, and its LDio has the word that stood there.
pub fn only_stores_write<D: Device>()
    ensures { OnlyStoresWrite D.Device.meaning }
{}

/// What VALUE carries is what the entry of the LDio has.
pub fn values_are_entered<D: Device>()
    ensures { ValuesAreEntered D.Device.meaning }
{}

/// After NACK the request goes out again, with the clock as it stands now, and nothing else happens.
pub fn refused_requests_go_out_again<D: Device>()
    ensures { RefusedRequestsGoOutAgain D.Device.meaning }
{}

/// Only block requests are ever out, one for a block, until WORDS or DONE.
pub fn requests_are_for_blocks<D: Device>()
    ensures { RequestsAreForBlocks D.Device.meaning }
{}

/// No INT is sent while a block request is out.
#[tactic(auto, using(crate::proofs::Asking::interrupts_wait))]
pub fn interrupts_wait<D: Device>()
    ensures { InterruptsWait D.Device.meaning }
{}

/// An own LDio or STio is refused only for a word that is not there, and a wish waits only for block requests.
pub fn wishes_are_judged<D: Device>()
    ensures { WishesAreJudged D.Device.meaning }
{}

/// A kind that is not a device's has no rule, and no reaction sends more than one message.
pub fn bridges_keep_to_their_part<D: Device>()
    ensures { BridgesKeepToTheirPart D.Device.meaning }
{}

/// What a plan says is what is performed: the new numbers, how many messages, whether an operation, and the
/// calls that the device gets.
pub fn plans_are_kept<D: Device>()
    ensures { PlansAreKept D.Device.meaning }
{}

/// An STio writes the value that Wio brought or the wish's first word; Wblk carries the words of the wish, and INT its first.
pub fn bridges_write_as_asked<D: Device>()
    ensures { BridgesWriteAsAsked D.Device.meaning }
{}
