//! What any device does over many calls. The function does nothing; what it promises is proved.

ghost use Rattle.device.specs.Events.{WordsAsWritten};

use crate::meaning::Device;

/// Over any calls the words of any device are what was written to them.
#[tactic(auto, using(crate::proofs::Written::words_as_written))]
pub fn words_are_as_written<D: Device>()
    ensures { WordsAsWritten D.Device.meaning }
{}
