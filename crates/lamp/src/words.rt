//! What is shown, in words.

use coherence::fault::Fault;
use std::fmt;
use trail::entry::Entry;

/// Why a call was refused, by its number and place.
#[derive(Clone, Copy)]
pub struct Refused(pub Fault);

impl fmt::Display for Refused {
    fn fmt<W: fmt::Write>(&self, f: &mut fmt::Formatter<W>) -> fmt::Result {
        let number = self.0.number();
        let place = self.0.place();
        write!(f, "refused with {number}, place {place}")
    }
}

/// An operation that was done, with its first value.
#[derive(Clone, Copy)]
pub struct Done(pub Entry);

impl fmt::Display for Done {
    fn fmt<W: fmt::Write>(&self, f: &mut fmt::Formatter<W>) -> fmt::Result {
        let Done(done) = *self;
        let [value, ..] = done.values.at;
        let stamp = done.stamp;
        write!(f, "party {}, number {}: ", done.party, done.sequence)?;
        write!(
            f,
            "{} of word {} in space {}, ",
            done.operation, done.place, done.space
        )?;
        write!(f, "value {value}, ")?;
        write!(f, "stamp {} {} {}", stamp.global, stamp.local, stamp.node)
    }
}

/// The write that a word was read from, by its entry and value.
#[derive(Clone, Copy)]
pub struct Source(pub Option<(usize, u32)>);

impl fmt::Display for Source {
    fn fmt<W: fmt::Write>(&self, f: &mut fmt::Formatter<W>) -> fmt::Result {
        match self.0 {
            Some((entry, value)) => write!(f, "entry {entry}, value {value}"),
            None => f.write_str("none, as it was made"),
        }
    }
}
