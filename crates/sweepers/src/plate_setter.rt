//! The plate setter: it fetches blocks in turn and then interrupts a processor with value 1.
//! Of its 12 words the first four are service words; the sweep's stand from word 4.

ghost use Rattle.std.proofs.Common.{rules};
ghost use Rattle.sweepers.specs.Plates.{fetched};

use crate::sweeper::{Job, Sweeper};
use device::meaning::Wish;
use device::registers::Registers;
use ordering::operation::{Operation, Words};

/// The plate setter with all its 12 words, the four service words among them.
pub type PlateSetter = Sweeper<Fetching, 12>;

/// Each block is read, and then the processor interrupted with value 1.
#[derive(Clone, Copy, Debug, PartialEq, Eq)]
pub struct Fetching;

impl Job<12> for Fetching {
    ghost COMMAND = { 4 };

    const COMMAND: usize = 4;

    ghost DONE = { 1 };

    const DONE: u32 = 1;

    ghost each = { fetched };

    ghost few = { Prim.search rules };

    ghost fits = { Prim.search rules };

    ghost four_words = { Prim.search rules };

    fn wish_at(_words: &Registers<12>, block: u32) -> Wish {
        Wish::block(Operation::LdBlk, block, Words::ZERO)
    }
}
