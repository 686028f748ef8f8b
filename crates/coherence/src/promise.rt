//! What every run of calls keeps, for every two devices.

ghost use Rattle.coherence.specs.Promise.{StampsAreUnique, MessagesAreFormed, OrderPromise};

use device::meaning::Device;

/// In every run, no two entries of the trail have one stamp.
pub fn stamps_are_unique<A: Device, B: Device>()
    ensures { StampsAreUnique A.Device.meaning B.Device.meaning }
{}

/// In every run, every waiting message is well formed on its board.
pub fn messages_are_formed<A: Device, B: Device>()
    ensures { MessagesAreFormed A.Device.meaning B.Device.meaning }
{}

/// The order promise, for every two devices, over every making and every list of calls: entries have their own stamps
/// and numbers; operations that the tables order are done in order, with rising stamps; every read got the latest write
/// below it, and told it; and every waiting message has a rule.
pub fn order_is_kept<A: Device, B: Device>()
    ensures { OrderPromise A.Device.meaning B.Device.meaning }
{}
