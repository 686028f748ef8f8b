//! Cache lines: a processor's copy of each block, if it has one.

ghost use Rattle.std.specs.Prelude.{◌≡◌};
ghost use Rattle.processor.specs.Calls.{fits};
ghost use Rattle.processor.specs.Lines.{held_words, owned_words, word_of, with_word};
ghost use Rattle.processor.specs.declared.line.Line.TheVariants.{Invalid};

use message::kind::Kind;
use message::table::{Blank, Table};
use ordering::operation::Words;

#[derive(Clone, Copy, Debug, PartialEq, Eq)]
pub enum Line {
    Invalid,
    Shared(Words),
    Exclusive(Words),
}

/// By block; a line past the last block is invalid.
pub type Lines = Table<Line, 16>;

impl Blank for Line {
    ghost BLANK = { Invalid };

    const BLANK: Line = Line::Invalid;
}

impl Line {
    /// The words of a line that may be loaded from.
    pub fn held(self) -> Option<Words>
        ensures { result ≡ held_words self }
    {
        match self {
            Line::Invalid => None,
            Line::Shared(words) | Line::Exclusive(words) => Some(words),
        }
    }

    /// The words of a line that may be stored to.
    pub fn owned(self) -> Option<Words>
        ensures { result ≡ owned_words self }
    {
        match self {
            Line::Invalid | Line::Shared(_) => None,
            Line::Exclusive(words) => Some(words),
        }
    }

    /// Whether the line is one at which a processor may ask for this.
    pub(crate) fn fits(self, kind: Kind) -> bool
        ensures { result ≡ fits self kind }
    {
        matches!(
            (self, kind),
            (Line::Invalid, Kind::Gets | Kind::Getx)
                | (Line::Shared(_), Kind::Upg)
                | (Line::Exclusive(_), Kind::Wb)
        )
    }
}

/// What a block's words have at a word of memory.
pub fn word_of(words: Words, word: u32) -> u32
    ensures { result ≡ word_of words word }
{
    words.at[(word % 4) as usize]
}

/// The block's words once `value` stands at a word of memory.
pub fn with_word(words: Words, word: u32, value: u32) -> Words
    ensures { result ≡ with_word words word value }
{
    let mut next = words;
    next.at[(word % 4) as usize] = value;
    next
}
