//! A bank of four lamps: a device that only keeps what is written to it.

ghost use Rattle.std.specs.Prelude.{◌≡◌, ℕ, List};
ghost use Rattle.lamp.specs.Banks.{lamps, bank_meaning};
ghost use Rattle.std.proofs.Common.{rules};

use device::meaning::{Device, NoWord, Wish};
use device::registers::Registers;
use ordering::operation::Words;

/// A word for each lamp.
#[derive(Clone, Copy)]
pub struct Bank {
    lamps: Registers<4>,
}

impl Bank {
    /// The lamps as these words say.
    pub fn new(words: [u32; 4]) -> Bank
        ensures { lamps result ≡ words }
    {
        Bank {
            lamps: Registers { at: words },
        }
    }
}

impl Device for Bank {
    ghost State = { List ℕ };

    ghost state = { lamps };

    ghost meaning = { bank_meaning };

    ghost lawful = { Prim.search rules };

    fn count(&self) -> u32 {
        self.lamps.len() as u32
    }

    fn wish(&self) -> Option<Wish> {
        None
    }

    fn read(&mut self, place: u32) -> Result<u32, NoWord> {
        self.lamps.read(place)
    }

    fn write(&mut self, place: u32, value: u32) -> Result<(), NoWord> {
        self.lamps.write(place, value)
    }

    fn accepted(&mut self, _word: u32) {}

    fn landed(&mut self, _block: u32, _words: Words) {}
}
