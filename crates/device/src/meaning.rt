//! What a device means. The trait's ghost members say it: a state, the words and the wish that are read from a
//! state, and the state that follows each call. Code over any device is proved against these alone.

ghost use Rattle.std.specs.Prelude.{◌≡◌, ◌≤◌, length};
ghost use Rattle.device.specs.Meaning.{Meaning, Laws, read_exit, read_answer, write_exit, write_answer};
ghost use Rattle.device.specs.Wishes.{block_wish, interrupt_wish};

use ordering::operation::{Operation, Words};

/// An operation that a device asks for. Fields that the operation does not use are 0.
#[derive(Clone, Copy, Debug, PartialEq, Eq)]
pub struct Wish {
    pub operation: Operation,
    pub place: u32,
    pub processor: u32,
    pub words: Words,
}

impl Wish {
    /// `operation` at a block: LDblk, or STblk of these words.
    pub fn block(operation: Operation, block: u32, words: Words) -> Wish
        ensures { result ≡ block_wish operation block words }
    {
        Wish {
            operation,
            place: block,
            processor: 0,
            words,
        }
    }

    /// An INT to a processor, with the value that it reports.
    pub fn interrupt(processor: u32, value: u32) -> Wish
        ensures { result ≡ interrupt_wish processor value }
    {
        Wish {
            operation: Operation::Int,
            place: 0,
            processor,
            words: Words::one(value),
        }
    }
}

/// The device has no word at this place.
#[derive(Clone, Copy, Debug, PartialEq, Eq)]
pub struct NoWord {
    pub place: u32,
}

/// Words at places, and operations that it wishes for.
pub trait Device {
    ghost State: { Type 0 };

    ghost state: { Self → State };

    ghost meaning: { Meaning State };

    /// How many words it has.
    fn count(&self) -> u32
        ensures count { result ≡ length (meaning.words (state self.now)) }
        ensures few { result ≤ 64 };

    /// What it wishes for.
    fn wish(&self) -> Option<Wish>
        ensures { result ≡ meaning.wish (state self.now) };

    /// The word at a place. A device may mark that it was read.
    fn read(&mut self, place: u32) -> Result<u32, NoWord>
        ensures exit { state self.new ≡ read_exit meaning (state self.old) place }
        ensures answer { result ≡ read_answer meaning (state self.old) place };

    /// Puts a value at a place.
    fn write(&mut self, place: u32, value: u32) -> Result<(), NoWord>
        ensures exit { state self.new ≡ write_exit meaning (state self.old) place value }
        ensures answer { result ≡ write_answer meaning (state self.old) place };

    /// Its wish was accepted; `word` is what an LDio of its own got, else 0.
    fn accepted(&mut self, word: u32)
        ensures { state self.new ≡ meaning.accepted (state self.old) word };

    /// A block that it asked for came, with these words.
    fn landed(&mut self, block: u32, words: Words)
        ensures { state self.new ≡ meaning.landed (state self.old) block words };

    ghost lawful: { Laws meaning };
}
