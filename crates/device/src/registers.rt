//! The words of a device, by their places.

ghost use Rattle.std.specs.Prelude.{◌≡◌, length};
ghost use Rattle.device.specs.Registers.{zeros, read_of, after_write, write_of};

use crate::meaning::NoWord;

/// The words of a device that has `N`.
#[derive(Clone, Copy, Debug, PartialEq, Eq)]
pub struct Registers<const N: usize> {
    pub at: [u32; N],
}

impl<const N: usize> Registers<N> {
    /// All words 0.
    pub fn zeros() -> Registers<N>
        ensures { result ≡ zeros N }
    {
        Registers { at: [0; N] }
    }

    /// How many words there are.
    pub fn len(&self) -> usize
        ensures words { result ≡ length self.now.at }
        ensures size { result ≡ N }
    {
        self.at.as_slice().len()
    }

    /// The word at a place, unless the place is past the last word.
    pub fn read(&self, place: u32) -> Result<u32, NoWord>
        ensures { result ≡ read_of self.now place }
    {
        self.at.get(place as usize).copied().ok_or(NoWord { place })
    }

    /// Puts a value at a place, unless the place is past the last word.
    pub fn write(&mut self, place: u32, value: u32) -> Result<(), NoWord>
        ensures exit { self.new ≡ after_write self.old place value }
        ensures answer { result ≡ write_of self.old place }
    {
        // Of what `get_mut` lends, a proof knows no element afterwards.
        self.read(place)?;
        self.at[place as usize] = value;
        Ok(())
    }
}
