//! What is written to a device to have it sweep, and to stop it.

ghost use Rattle.std.specs.Prelude.{◌≡◌};
ghost use Rattle.sweep.specs.Orders.{order, given, stopped};

use device::meaning::{Device, NoWord};

const COMMAND: u32 = 0;

const FIRST_BLOCK: u32 = 1;

const BLOCK_COUNT: u32 = 2;

const PROCESSOR: u32 = 3;

/// A sweep of `count` blocks from `first`, and the processor to interrupt after it.
#[derive(Clone, Copy)]
pub struct Order {
    first: u32,
    count: u32,
    processor: u32,
}

impl Order {
    /// The order with these numbers, any of 32 bits.
    pub fn new(first: u32, count: u32, processor: u32) -> Order
        ensures { result ≡ order first count processor }
    {
        Order {
            first,
            count,
            processor,
        }
    }

    /// Writes the order to the device's words and then starts it; a word that the device has not ends that.
    pub fn give<D: Device>(self, device: &mut D) -> Result<(), NoWord>
        ensures { (result, D.Device.state device.new) ≡ given D.Device.meaning (D.Device.state device.old) self }
    {
        device.write(FIRST_BLOCK, self.first)?;
        device.write(BLOCK_COUNT, self.count)?;
        device.write(PROCESSOR, self.processor)?;
        device.write(COMMAND, 1)
    }
}

/// Writes a command that stops the sweep; a device without words refuses it.
pub fn stop<D: Device>(device: &mut D) -> Result<(), NoWord>
    ensures { (result, D.Device.state device.new) ≡ stopped D.Device.meaning (D.Device.state device.old) }
{
    device.write(COMMAND, 0)
}
