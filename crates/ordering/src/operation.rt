//! The seven operations, and the four words that one carries.

ghost use Rattle.std.specs.Prelude.{◌≡◌};
ghost use Rattle.ordering.specs.Operations.{is_read, is_write, is_block, name_of, ReadsOrWrites};
ghost use Rattle.ordering.specs.Words.{one_word};

use std::fmt;

/// What is done at a place of a space.
#[derive(Clone, Copy, Debug, PartialEq, Eq)]
pub enum Operation {
    Ld,
    St,
    LdIo,
    StIo,
    Int,
    LdBlk,
    StBlk,
}

impl Operation {
    /// Whether it gets what stands at its place.
    pub fn is_read(self) -> bool
        ensures { result ≡ is_read self }
    {
        matches!(self, Operation::Ld | Operation::LdIo | Operation::LdBlk)
    }

    /// Whether it changes what stands at its place.
    pub fn is_write(self) -> bool
        ensures { result ≡ is_write self }
    {
        matches!(self, Operation::St | Operation::StIo | Operation::StBlk)
    }

    /// Whether its place is a block of four words.
    pub fn is_block(self) -> bool
        ensures { result ≡ is_block self }
    {
        matches!(self, Operation::LdBlk | Operation::StBlk)
    }

    /// The text of its display.
    pub fn name(self) -> &'static str
        ensures { result.now ≡ name_of self }
    {
        match self {
            Operation::Ld => "LD",
            Operation::St => "ST",
            Operation::LdIo => "LDio",
            Operation::StIo => "STio",
            Operation::Int => "INT",
            Operation::LdBlk => "LDblk",
            Operation::StBlk => "STblk",
        }
    }
}

/// No operation reads and writes, and each but INT does one of them.
pub fn operations_read_or_write()
    ensures { ReadsOrWrites }
{}

impl fmt::Display for Operation {
    ghost use Rattle.std.specs.Prelude.{Some};

    ghost output = { λ operation. Some (name_of operation) };

    fn fmt<W: fmt::Write>(&self, f: &mut fmt::Formatter<W>) -> fmt::Result {
        f.write_str(self.name())
    }
}

/// The words of a block, or one word first and then zeros.
#[derive(Clone, Copy, Debug, PartialEq, Eq)]
pub struct Words {
    pub at: [u32; 4],
}

impl Words {
    pub const ZERO: Words = Words { at: [0; 4] };

    /// The word first, and then zeros.
    pub fn one(word: u32) -> Words
        ensures { result ≡ one_word word }
    {
        Words {
            at: [word, 0, 0, 0],
        }
    }
}
