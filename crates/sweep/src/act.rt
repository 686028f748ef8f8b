//! Doing what a device wishes for.

ghost use Rattle.std.specs.Prelude.{◌≡◌};
ghost use Rattle.sweep.specs.Acts.{acted};

use device::meaning::{Device, NoWord, Wish};
use ordering::operation::Operation;

/// Does an LDio or STio at the device's own words, and accepts the wish.
pub fn act<D: Device>(device: &mut D, wish: Wish) -> Result<(), NoWord>
    ensures { (result, D.Device.state device.new) ≡ acted D.Device.meaning (D.Device.state device.old) wish }
{
    let word = match wish.operation {
        Operation::LdIo => device.read(wish.place)?,
        Operation::StIo => {
            device.write(wish.place, wish.words.at[0])?;
            0
        }
        _ => 0,
    };
    device.accepted(word);
    Ok(())
}
