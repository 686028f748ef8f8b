//! Why a word of an entry has no source: there is no such read, or it has no such word.

ghost use Rattle.std.specs.Prelude.{◌≡◌};
ghost use Rattle.trail.specs.Faults.{fault_number, fault_place};

/// What a source was asked for is not there: both are arguments outside their range.
#[derive(Clone, Copy, Debug, PartialEq, Eq)]
pub enum SourceFault {
    /// The trail has no such entry, or that is no read.
    NoRead,
    /// The entry has no such word.
    NoWord,
}

impl SourceFault {
    /// The number of the refusal: 2, an argument outside its range.
    pub fn number(self) -> u32
        ensures { result ≡ fault_number self }
    {
        match self {
            SourceFault::NoRead | SourceFault::NoWord => 2,
        }
    }

    /// Which argument it is, from 1.
    pub fn place(self) -> u32
        ensures { result ≡ fault_place self }
    {
        match self {
            SourceFault::NoRead => 1,
            SourceFault::NoWord => 2,
        }
    }
}
