//! Slots: one for each device, for the word of an LDio that is under way or has come.

ghost use Rattle.std.specs.Prelude.{◌≡◌};
ghost use Rattle.processor.specs.Slots.{is_awaited, awaited_device};
ghost use Rattle.processor.specs.declared.slot.Slot.TheVariants.{Free};

use message::table::{Blank, Table};

#[derive(Clone, Copy, Debug, PartialEq, Eq)]
pub enum Slot {
    Free,
    /// The word is awaited, and somebody holds the slot.
    Awaited,
    /// The word is awaited, and nobody holds the slot.
    Abandoned,
    Came(u32),
}

/// By device; what is no device has a free slot.
pub type Slots = Table<Slot, 2>;

impl Blank for Slot {
    ghost BLANK = { Free };

    const BLANK: Slot = Slot::Free;
}

impl Slot {
    /// Whether the word of an LDio has yet to come.
    pub fn is_awaited(self) -> bool
        ensures { result ≡ is_awaited self }
    {
        matches!(self, Slot::Awaited | Slot::Abandoned)
    }
}

/// The lowest device from which a word has yet to come.
pub fn awaited_device(slots: Slots) -> Option<u32>
    ensures { result ≡ awaited_device slots }
{
    [0, 1]
        .into_iter()
        .find(|device| slots.get(*device).is_awaited())
}
