//! The lines of a text. A newline ends a line; the last may lack it.

ghost use Rattle.std.specs.Prelude.{◌≡◌};
ghost use Rattle.std.specs.Iterator.{YieldsFirstBy, item_count};
ghost use Rattle.text.specs.Parts.{lines_of, lines_left, LinesAreReadBack};

use crate::parts::Parts;

/// A text and the place up to which it has been read.
#[derive(Clone, Copy, Debug, PartialEq, Eq)]
pub struct Lines<'a> {
    parts: Parts<'a, b'\n'>,
}

impl<'a> Iterator for Lines<'a> {
    type Item = &'a [u8];

    ghost next_gives = { YieldsFirstBy (λ line. line.now) lines_left };

    ghost remaining = { item_count lines_left };

    #[tactic(auto, using(crate::proofs::Splitting::opened, crate::proofs::Splitting::nothing_left))]
    fn next(&mut self) -> Option<&'a [u8]> {
        if self.parts.at >= self.parts.bytes.len() {
            return None;
        }
        self.parts.next()
    }
}

impl<'a> Lines<'a> {
    /// All lines of the text, from its first.
    pub fn new(text: &'a [u8]) -> Lines<'a>
        ensures { lines_left result ≡ lines_of text.now }
    {
        Lines {
            parts: Parts { bytes: text, at: 0 },
        }
    }
}

/// Lines that are written, each ended by a newline or the last without it, are read as they were.
#[tactic(auto, using(crate::proofs::Splitting::lines_read))]
pub fn lines_are_read_back()
    ensures { LinesAreReadBack }
{}
