//! A line of a script: a letter and decimal numbers, parted by tabs.

ghost use Rattle.std.specs.Prelude.{◌≡◌, OnOk};
ghost use Rattle.script.specs.declared.fault.ScriptFault.TheVariants.{NotOfForm};
ghost use Rattle.script.specs.Forms.{formed, first_letter, last_number, call_of, opening_of};
ghost use Rattle.text.specs.Parts.{unread, first_number, other_fields};

use crate::fault::ScriptFault;
use coherence::call::Call;
use text::Fields;

/// What the first line asks for: a board of so many processors, with all clocks at `clock`.
#[derive(Clone, Copy, Debug, PartialEq, Eq)]
pub struct Opening {
    pub processors: u32,
    pub clock: u32,
}

/// A line's number, from 1, and its fields.
#[derive(Clone, Copy, Debug, PartialEq, Eq)]
pub struct Line<'a> {
    pub(crate) number: usize,
    pub(crate) fields: Fields<'a>,
}

impl Line<'_> {
    fn not_of_form(&self) -> ScriptFault
        ensures { result ≡ NotOfForm self.now.number }
    {
        ScriptFault::NotOfForm(self.number)
    }

    // The next field, of one letter.
    fn letter(&mut self) -> Result<char, ScriptFault>
        ensures value { result ≡ formed self.old.number (first_letter (unread self.old.fields)) }
        ensures rest { OnOk result (unread self.new.fields ≡ other_fields (unread self.old.fields)) }
        ensures line { self.new.number ≡ self.old.number }
    {
        let Some(&[letter]) = self.fields.next() else {
            return Err(self.not_of_form());
        };
        Ok(char::from(letter))
    }

    // The next field, a number.
    fn number(&mut self) -> Result<u32, ScriptFault>
        ensures value { result ≡ formed self.old.number (first_number (unread self.old.fields)) }
        ensures rest { unread self.new.fields ≡ other_fields (unread self.old.fields) }
        ensures line { self.new.number ≡ self.old.number }
    {
        let Some(number) = self.fields.number() else {
            return Err(self.not_of_form());
        };
        Ok(number)
    }

    // The next field, a number, after which nothing more stands in the line.
    fn last(&mut self) -> Result<u32, ScriptFault>
        ensures { result ≡ formed self.old.number (last_number (unread self.old.fields)) }
    {
        let last = self.number()?;
        if !self.fields.is_done() {
            return Err(self.not_of_form());
        }
        Ok(last)
    }

    /// The call that the line makes.
    pub fn call(mut self) -> Result<Call, ScriptFault>
        ensures { result ≡ formed self.entry.number (call_of (unread self.entry.fields)) }
    {
        match self.letter()? {
            'L' => Ok(Call::Load {
                processor: self.number()?,
                word: self.last()?,
            }),
            'S' => Ok(Call::Store {
                processor: self.number()?,
                word: self.number()?,
                value: self.last()?,
            }),
            'Q' => Ok(Call::Request {
                processor: self.number()?,
                block: self.number()?,
                kind: self.last()?,
            }),
            'R' => Ok(Call::LdIo {
                processor: self.number()?,
                device: self.number()?,
                word: self.last()?,
            }),
            'W' => Ok(Call::StIo {
                processor: self.number()?,
                device: self.number()?,
                word: self.number()?,
                value: self.last()?,
            }),
            'C' => Ok(Call::Collect {
                processor: self.number()?,
                device: self.last()?,
            }),
            'X' => Ok(Call::GiveUp {
                processor: self.number()?,
                device: self.last()?,
            }),
            'D' => Ok(Call::Act {
                device: self.last()?,
            }),
            'G' => Ok(Call::Deliver {
                place: self.last()?,
            }),
            'P' => Ok(Call::Poll {
                processor: self.last()?,
            }),
            _ => Err(self.not_of_form()),
        }
    }

    /// The making that the line asks for.
    pub fn opening(mut self) -> Result<Opening, ScriptFault>
        ensures { result ≡ formed self.entry.number (opening_of (unread self.entry.fields)) }
    {
        let 'M' = self.letter()? else {
            return Err(self.not_of_form());
        };
        Ok(Opening {
            processors: self.number()?,
            clock: self.last()?,
        })
    }
}
