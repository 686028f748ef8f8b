//! A device that sweeps blocks: it takes command, first block, count and processor from four of its words, wishes for
//! its operation at each block in turn, and then interrupts the processor.

ghost use Rattle.std.specs.Prelude.{◌≡◌, ℕ, ◌+◌, ◌≤◌, List, length};
ghost use Rattle.device.specs.declared.meaning.Wish.{Wish};
ghost use Rattle.std.proofs.Common.{rules};
ghost use Rattle.sweepers.specs.declared.sweeper.Sweeper.{Sweeper};
ghost use Rattle.sweepers.specs.Sweepers.{blank, sweeper_meaning};
ghost use Rattle.sweepers.specs.Tasks.{task};

use crate::sweep::{Stage, Sweep};
use device::meaning::{Device, NoWord, Wish};
use device::registers::Registers;
use ordering::operation::Words;
use std::marker::PhantomData;

// Where the words of a sweep stand, from the command's place.
const FIRST_BLOCK: usize = 1;

const BLOCK_COUNT: usize = 2;

const PROCESSOR: usize = 3;

/// What a sweeping device of so many words does.
pub trait Job<const WORDS: usize> {
    ghost COMMAND: { ℕ };

    /// Where the command stands; first block, count and processor stand after it.
    const COMMAND: usize;

    ghost DONE: { ℕ };

    /// The value of the interrupt.
    const DONE: u32;

    ghost each: { List ℕ → ℕ → Wish };

    /// The wish at a block.
    fn wish_at(words: &Registers<WORDS>, block: u32) -> Wish
        ensures { result ≡ each words.now.at block };

    ghost few: { WORDS ≤ 64 };

    ghost fits: { COMMAND + 4 ≤ WORDS };

    ghost four_words: { (ws : List ℕ) (b : ℕ) → length (each ws b).words.at ≡ 4 };
}

/// A device of so many words that sweeps blocks as its job says.
#[derive(Clone, Copy, Debug, PartialEq, Eq)]
pub struct Sweeper<J, const WORDS: usize> {
    words: Registers<WORDS>,
    sweep: Option<Sweep>,
    job: PhantomData<J>,
}

impl<J: Job<WORDS>, const WORDS: usize> Sweeper<J, WORDS> {
    /// All words 0, no wish.
    pub fn new() -> Sweeper<J, WORDS>
        ensures { result ≡ blank WORDS }
    {
        Sweeper {
            words: Registers::zeros(),
            sweep: None,
            job: PhantomData,
        }
    }
}

impl<J: Job<WORDS>, const WORDS: usize> Device for Sweeper<J, WORDS> {
    ghost State = { Sweeper J WORDS };

    ghost state = { λ s. s };

    ghost meaning = { sweeper_meaning (task J.COMMAND J.each J.DONE) };

    ghost lawful = { Prim.search rules };

    fn count(&self) -> u32 {
        self.words.len() as u32
    }

    fn wish(&self) -> Option<Wish> {
        let wish = match self.sweep?.stage() {
            Stage::Block(block) => J::wish_at(&self.words, block),
            Stage::Interrupt => Wish::interrupt(self.words.at[J::COMMAND + PROCESSOR], J::DONE),
        };
        Some(wish)
    }

    fn read(&mut self, place: u32) -> Result<u32, NoWord> {
        self.words.read(place)
    }

    fn write(&mut self, place: u32, value: u32) -> Result<(), NoWord> {
        if place as usize == J::COMMAND {
            let first = self.words.at[J::COMMAND + FIRST_BLOCK];
            let count = self.words.at[J::COMMAND + BLOCK_COUNT];
            self.sweep = Sweep::commanded(value, first, count);
        }
        self.words.write(place, value)
    }

    fn accepted(&mut self, _word: u32) {
        self.sweep = self.sweep.and_then(Sweep::advanced);
    }

    fn landed(&mut self, _block: u32, _words: Words) {}
}
