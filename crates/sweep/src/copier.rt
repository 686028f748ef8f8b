//! A device of the program's own, to show that any will do: once 1 is written to its word 0, it loads its word 1
//! and stores it to its word 2. It also counts how often it was read, which its meaning leaves out.

ghost use Rattle.std.specs.Prelude.{◌≡◌};
ghost use Rattle.sweep.specs.declared.copier.Copying.{Copying};
ghost use Rattle.sweep.specs.Copiers.{copier_meaning, blank_copier, copying, word_wish};
ghost use Rattle.std.proofs.Common.{rules};

use device::meaning::{Device, NoWord, Wish};
use device::registers::Registers;
use ordering::operation::{Operation, Words};

const SOURCE: u32 = 1;

const TARGET: u32 = 2;

/// What the copier is at: nothing, the load of its word 1, or the store of what it loaded.
#[derive(Clone, Copy)]
pub enum Phase {
    Rest,
    Load,
    Store(u32),
}

/// All that the copier's meaning speaks of.
#[derive(Clone, Copy)]
pub struct Copying {
    words: Registers<3>,
    phase: Phase,
}

/// The copier, and how often it was read.
#[derive(Clone, Copy)]
pub struct Copier {
    copying: Copying,
    reads: u32,
}

impl Copier {
    /// All words 0, at rest, never read.
    pub fn new() -> Copier
        ensures { result ≡ blank_copier }
    {
        let copying = Copying {
            words: Registers::zeros(),
            phase: Phase::Rest,
        };
        Copier { copying, reads: 0 }
    }
}

fn word_wish(operation: Operation, place: u32, word: u32) -> Wish
    ensures { result ≡ word_wish operation place word }
{
    Wish {
        operation,
        place,
        processor: 0,
        words: Words::one(word),
    }
}

impl Device for Copier {
    ghost State = { Copying };

    ghost state = { copying };

    ghost meaning = { copier_meaning };

    ghost lawful = { Prim.search rules };

    fn count(&self) -> u32 {
        self.copying.words.len() as u32
    }

    fn wish(&self) -> Option<Wish> {
        match self.copying.phase {
            Phase::Rest => None,
            Phase::Load => Some(word_wish(Operation::LdIo, SOURCE, 0)),
            Phase::Store(word) => Some(word_wish(Operation::StIo, TARGET, word)),
        }
    }

    fn read(&mut self, place: u32) -> Result<u32, NoWord> {
        let word = self.copying.words.read(place)?;
        self.reads = self.reads.wrapping_add(1);
        Ok(word)
    }

    fn write(&mut self, place: u32, value: u32) -> Result<(), NoWord> {
        self.copying.words.write(place, value)?;
        if place == 0 {
            self.copying.phase = if value == 1 { Phase::Load } else { Phase::Rest };
        }
        Ok(())
    }

    fn accepted(&mut self, word: u32) {
        self.copying.phase = match self.copying.phase {
            Phase::Load => Phase::Store(word),
            _ => Phase::Rest,
        };
    }

    fn landed(&mut self, _block: u32, _words: Words) {}
}
