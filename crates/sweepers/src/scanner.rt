//! The scanner: it stores a row of four words to blocks in turn and then interrupts a processor with value 2.
//! The sweep's words stand from word 0 of its 8, and the row's first word after them.

ghost use Rattle.std.specs.Prelude.{◌≡◌};
ghost use Rattle.std.proofs.Common.{rules};
ghost use Rattle.sweepers.specs.Scanners.{stored, row_from};

use crate::sweeper::{Job, Sweeper};
use device::meaning::Wish;
use device::registers::Registers;
use ordering::operation::{Operation, Words};

/// The scanner with its 8 words: the sweep's four, and the row's first word at place 4.
pub type Scanner = Sweeper<Storing, 8>;

/// The row is stored to each block, and then the processor interrupted with value 2.
#[derive(Clone, Copy, Debug, PartialEq, Eq)]
pub struct Storing;

const ROW: usize = 4;

// Four numbers in turn, wrapping at the end of 32 bits.
fn row_from(word: u32) -> Words
    ensures { result ≡ row_from word }
{
    Words {
        at: [0, 1, 2, 3].map(|step| word.wrapping_add(step)),
    }
}

impl Job<8> for Storing {
    ghost COMMAND = { 0 };

    const COMMAND: usize = 0;

    ghost DONE = { 2 };

    const DONE: u32 = 2;

    ghost each = { stored };

    ghost few = { Prim.search rules };

    ghost fits = { Prim.search rules };

    ghost four_words = { Prim.search rules };

    fn wish_at(words: &Registers<8>, block: u32) -> Wish {
        Wish::block(Operation::StBlk, block, row_from(words.at[ROW]))
    }
}
