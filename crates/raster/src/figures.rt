//! What calls and messages have to fit: how many processors there are, and how many words each device has.

ghost use Rattle.std.specs.Prelude.{◌≡◌, length};
ghost use Rattle.raster.specs.Boards.{device_words, board_figures};

use crate::board::Board;
use device::meaning::Device;
use message::figures::Figures;

impl<A: Device, B: Device> Board<A, B> {
    /// How many words a device has; every number but 0 stands for the second.
    pub(crate) fn word_count(&self, device: u32) -> u32
        ensures { result ≡ length (device_words A.Device B.Device self.now device) }
    {
        if device < 1 {
            self.first.device.count()
        } else {
            self.second.device.count()
        }
    }

    /// What decides whether a message is well formed on this board.
    pub(crate) fn figures(&self) -> Figures
        ensures { result ≡ board_figures A.Device B.Device self.now }
    {
        Figures {
            processors: self.tables.count,
            counts: [self.first.device.count(), self.second.device.count()],
        }
    }
}
