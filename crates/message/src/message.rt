//! A message. `N` is the width of its clock: 64 bits where it waits, since a reaction may send a
//! number past the end before anyone looked; 32 bits once it is known to be within.

ghost use Rattle.std.specs.Prelude.{◌≡◌, ◌≤◌, true};
ghost use Rattle.message.specs.Checks.{fits, checked};
ghost use Rattle.message.specs.Messages.{plain};

use crate::figures::Figures;
use crate::form::Form;
use crate::kind::Kind;
use list::Record;
use ordering::operation::Words;

/// The place is a block, a device's word, or for INT a processor. A field that its kind does not fill is 0.
#[derive(Clone, Copy, Debug, PartialEq, Eq)]
pub struct Message<N = u64> {
    pub kind: Kind,
    pub sender: u32,
    pub receiver: u32,
    pub place: u32,
    pub words: Words,
    pub clock: N,
    pub sequence: u32,
    // A flag beside the words, and no `Option` of them: they stand there at every kind, and are 0 where none are sent.
    pub exclusive: bool,
    pub refused: Option<Kind>,
}

impl Message {
    /// A message that carries nothing but its kind and place.
    pub fn plain(kind: Kind, sender: u32, receiver: u32, place: u32) -> Message
        ensures { result ≡ plain kind sender receiver place }
    {
        Message {
            kind,
            sender,
            receiver,
            place,
            words: Words::ZERO,
            clock: 0,
            sequence: 0,
            exclusive: false,
            refused: None,
        }
    }

    fn fits(self, figures: Figures, form: Form) -> bool
        ensures value { result ≡ fits figures form self }
        ensures clock { result ≡ true → self.clock ≤ 1000000000 }
        ensures sequence { result ≡ true → self.sequence ≤ 1000000000 }
    {
        figures.allow(form.sender, self.sender, self.place)
            && figures.allow(form.receiver, self.receiver, self.place)
            && form.words.allows(self.exclusive, self.words)
            && form.numbers.allow(self.clock, self.sequence)
    }

    // Field by field, since a structure's update cannot change the clock's type.
    /// The same message with its clock at rest, if it is well formed on a board of these figures.
    pub fn checked(self, figures: Figures) -> Option<Message<u32>>
        ensures { result ≡ checked figures self }
    {
        let form = self.kind.form(self.refused)?;
        if !self.fits(figures, form) {
            return None;
        }
        Some(Message {
            kind: self.kind,
            sender: self.sender,
            receiver: self.receiver,
            place: self.place,
            words: self.words,
            clock: self.clock as u32,
            sequence: self.sequence,
            exclusive: self.exclusive,
            refused: self.refused,
        })
    }
}

impl Record for Message {
    const MOST: usize = 256;

    ghost MOST = { 256 };
}
