//! The calls of the board, after it is made.

/// A call of the board by its numbers. Any may be given, and the first outside its range is refused as
/// `BoardFault::Argument`.
///
/// A processor is below the board's number of them, a word of memory below 64, a block below 16, a device 0 or 1,
/// a device's word below its number of words, and a place below the number of waiting messages.
#[derive(Clone, Copy, Debug, PartialEq, Eq)]
pub enum Call {
    /// Does an LD on a line that is S or X, and tells the word.
    Load {
        processor: u32,
        word: u32,
    },
    /// Does an ST on a line that is X.
    Store {
        processor: u32,
        word: u32,
        value: u32,
    },
    /// Asks the home of a block for GETS, GETX, UPG or WB: kinds 1 to 4.
    Request {
        processor: u32,
        block: u32,
        kind: u32,
    },
    /// Asks a device for one of its words, and takes the slot for it.
    LdIo {
        processor: u32,
        device: u32,
        word: u32,
    },
    /// Sends a device a value for one of its words.
    StIo {
        processor: u32,
        device: u32,
        word: u32,
        value: u32,
    },
    /// Tells the word that came from a device, and frees the slot.
    Collect {
        processor: u32,
        device: u32,
    },
    /// Lets the slot for a device go: at once if its word came, else once it comes.
    GiveUp {
        processor: u32,
        device: u32,
    },
    /// Does the wish of a device.
    Act {
        device: u32,
    },
    /// Hands the message at a place over to its receiver.
    Deliver {
        place: u32,
    },
    /// Tells the latest interrupt word that was not polled, or none.
    Poll {
        processor: u32,
    },
}
