//! The lines of a script in turn, by their numbers from 1.

ghost use Rattle.std.specs.Prelude.{◌+◌, ◌<◌, ◌^◌, length};
ghost use Rattle.text.specs.Parts.{lines_left};

use crate::line::Line;
use text::{Fields, Lines};

/// The script, up to which place it has been read, and the number of the next line.
#[derive(Clone, Copy, Debug, PartialEq, Eq)]
pub struct Reader<'a> {
    lines: Lines<'a>,
    number: usize,
    ghost counted: { number + length (lines_left lines) < 2 ^ 64 },
}

impl<'a> Reader<'a> {
    ghost use Rattle.std.specs.Prelude.{◌≡◌};
    ghost use Rattle.script.specs.Lines.{script_lines, to_read};

    /// All lines of the script, from its first.
    #[tactic(auto, using(crate::proofs::Counting::few_lines))]
    pub fn new(script: &'a [u8]) -> Reader<'a>
        ensures { to_read result ≡ script_lines script.now }
    {
        Reader {
            lines: Lines::new(script),
            number: 1,
        }
    }
}

impl<'a> Iterator for Reader<'a> {
    ghost use Rattle.std.specs.Iterator.{YieldsFirstBy, item_count};
    ghost use Rattle.script.specs.Lines.{seen, to_read};

    type Item = Line<'a>;

    ghost next_gives = { YieldsFirstBy seen to_read };

    ghost remaining = { item_count to_read };

    fn next(&mut self) -> Option<Line<'a>> {
        let line = self.lines.next()?;
        let number = self.number;
        self.number += 1;
        Some(Line {
            number,
            fields: Fields::new(line),
        })
    }
}
