//! Why a processor refuses a call, with the block or the device that stands in the way.

ghost use Rattle.std.specs.Prelude.{◌≡◌};
ghost use Rattle.processor.specs.Refusals.{refusal_number, refusal_place};

#[derive(Clone, Copy, Debug, PartialEq, Eq)]
pub enum Refusal {
    /// A load or store to a block of which no fit copy is held.
    NotHeld(u32),
    /// A request that does not fit the block's line.
    Unfit(u32),
    /// A request for a block for which one is out.
    RequestOut(u32),
    /// A load or store before the word of an own LDio came from this device.
    Awaits(u32),
    /// An LDio whose slot is not free.
    SlotTaken(u32),
    /// Nothing that may be collected or given up: no word came, or nobody holds the slot.
    NotCollectable(u32),
}

impl Refusal {
    /// The number by which it is told, from 3 to 8.
    pub fn number(self) -> u32
        ensures { result ≡ refusal_number self }
    {
        match self {
            Refusal::NotHeld(_) => 3,
            Refusal::Unfit(_) => 4,
            Refusal::RequestOut(_) => 5,
            Refusal::Awaits(_) => 6,
            Refusal::SlotTaken(_) => 7,
            Refusal::NotCollectable(_) => 8,
        }
    }

    /// The block or the device that stands in the way.
    pub fn place(self) -> u32
        ensures { result ≡ refusal_place self }
    {
        match self {
            Refusal::NotHeld(block) | Refusal::Unfit(block) | Refusal::RequestOut(block) => block,
            Refusal::Awaits(device)
            | Refusal::SlotTaken(device)
            | Refusal::NotCollectable(device) => device,
        }
    }
}
