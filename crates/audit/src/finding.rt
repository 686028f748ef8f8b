//! What the audit finds of one word of a read.

ghost use Rattle.std.specs.Prelude.{◌≡◌};
ghost use Rattle.audit.specs.Findings.{found_of, judged};

use queries::source::source;
use std::fmt;
use trail::entry::Entry;

/// The read, which of its words, what it got there, and where that came from.
#[derive(Clone, Copy)]
pub struct Finding {
    pub entry: usize,
    pub word: u32,
    pub got: u32,
    pub source: Option<(usize, u32)>,
}

/// None where the entry is no read or has no such word.
pub fn audited(trail: &[Entry], entry: usize, word: u32) -> Option<Finding>
    ensures { result ≡ found_of trail.now entry word }
{
    let source = source(trail, entry, word).ok()?;
    let read = trail.get(entry)?;
    Some(Finding {
        entry,
        word,
        got: read.value_at(read.address(word)),
        source,
    })
}

fn verdict(value: u32, got: u32) -> &'static str
    ensures { result.now ≡ judged value got }
{
    if value == got { "agrees" } else { "differs" }
}

/// The line that tells it: entry, word, source entry and value, and whether the read agrees; or none.
impl fmt::Display for Finding {
    ghost use Rattle.std.specs.Prelude.{Some};
    ghost use Rattle.audit.specs.Findings.{line_of};

    ghost output = { λ found. Some (line_of found) };

    fn fmt<W: fmt::Write>(&self, f: &mut fmt::Formatter<W>) -> fmt::Result {
        let Finding {
            entry,
            word,
            got,
            source,
        } = *self;
        match source {
            None => write!(f, "{entry}\t{word}\tnone"),
            Some((number, value)) => {
                let verdict = verdict(value, got);
                write!(f, "{entry}\t{word}\t{number}\t{value}\t{verdict}")
            }
        }
    }
}
