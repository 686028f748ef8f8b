//! Addresses: a word of a space. A block's words have figures of up to 34 bits.

ghost use Rattle.std.specs.Prelude.{◌≡◌};
ghost use Rattle.trail.specs.Addresses.{address_of, covers, value_at, has_word};

use crate::entry::Entry;

// Its space is a number, as an entry's.
/// A word of a space.
#[derive(Clone, Copy, Debug, PartialEq, Eq)]
pub struct Address {
    pub space: u32,
    pub word: u64,
}

impl Entry {
    /// The address of one of the entry's words; a word operation has but one.
    pub fn address(&self, word: u32) -> Address
        ensures { result ≡ address_of self.now word }
    {
        if self.operation.is_block() {
            return Address {
                space: self.space,
                word: 4 * u64::from(self.place) + u64::from(word),
            };
        }
        Address {
            space: self.space,
            word: u64::from(self.place),
        }
    }

    /// A block operation has four words, any other one.
    pub fn has_word(&self, word: u32) -> bool
        ensures { result ≡ has_word self.now word }
    {
        if self.operation.is_block() {
            word < 4
        } else {
            word < 1
        }
    }

    /// Whether one of the entry's words stands at the address.
    pub fn covers(&self, address: Address) -> bool
        ensures { result ≡ covers self.now address }
    {
        let place = u64::from(self.place);
        if self.space != address.space {
            return false;
        }
        if self.operation.is_block() {
            return address.word / 4 == place;
        }
        address.word == place
    }

    /// The entry's value at an address that it covers.
    pub fn value_at(&self, address: Address) -> u32
        ensures { result ≡ value_at self.now address }
    {
        if self.operation.is_block() {
            return self.values.at[(address.word % 4) as usize];
        }
        self.values.at[0]
    }
}
