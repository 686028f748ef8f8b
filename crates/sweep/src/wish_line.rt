//! A wish as a line of text.

use device::meaning::Wish;
use ordering::operation::Operation;
use std::fmt;

/// The operation by its name, and what it is to read, write or report.
#[derive(Clone, Copy)]
pub struct WishLine(pub Wish);

impl fmt::Display for WishLine {
    fn fmt<W: fmt::Write>(&self, f: &mut fmt::Formatter<W>) -> fmt::Result {
        let wish = self.0;
        let operation = wish.operation;
        let [a, b, c, d] = wish.words.at;
        match operation {
            Operation::Int => write!(f, "{operation} to processor {} with {a}", wish.processor),
            Operation::LdBlk => write!(f, "{operation} of block {}", wish.place),
            Operation::StBlk => write!(f, "{operation} of block {}: {a} {b} {c} {d}", wish.place),
            Operation::StIo => write!(f, "{operation} of word {}: {a}", wish.place),
            _ => write!(f, "{operation} of word {}", wish.place),
        }
    }
}
