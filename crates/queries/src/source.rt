//! The source of a word that was read: the write below it with the greatest stamp there.

ghost use Rattle.std.specs.Prelude.{◌≡◌};
ghost use Rattle.queries.specs.Search.{candidate, later, latest, source_of};

use ordering::stamp::Stamp;
use trail::address::Address;
use trail::entry::Entry;
use trail::fault::SourceFault;

// A write that covers the address, with its number in the trail and its value there.
#[derive(Clone, Copy)]
struct Candidate {
    entry: usize,
    value: u32,
    stamp: Stamp,
}

impl Candidate {
    // An entry, if it is a write that covers the address and is below the reader.
    fn of(number: usize, entry: &Entry, address: Address, reader: Stamp) -> Option<Candidate>
        ensures { result ≡ candidate address reader number «entry».now }
    {
        if entry.operation.is_write() && entry.covers(address) && entry.stamp < reader {
            return Some(Candidate {
                entry: number,
                value: entry.value_at(address),
                stamp: entry.stamp,
            });
        }
        None
    }
}

// The one with the greater stamp; on a tie the first.
fn later(first: Option<Candidate>, second: Option<Candidate>) -> Option<Candidate>
    ensures { result ≡ later first second }
{
    match (first, second) {
        (Some(one), Some(other)) if one.stamp < other.stamp => second,
        (None, _) => second,
        _ => first,
    }
}

// A loop that keeps the latest so far: nothing is gathered, and of equal stamps the first stays.
#[tactic(auto, using(crate::proofs::Choice::latest_more))]
fn latest(trail: &[Entry], address: Address, reader: Stamp) -> Option<Candidate>
    ensures { result ≡ latest address reader 0 trail.now }
{
    let mut best = None;
    for (number, entry) in trail.iter().enumerate() {
        best = later(best, Candidate::of(number, entry, address, reader));
    }
    best
}

/// The entry number and the value of the write that a read got this word from, or none where no write came before.
pub fn source(trail: &[Entry], entry: usize, word: u32) -> Result<Option<(usize, u32)>, SourceFault>
    ensures { result ≡ source_of trail.now entry word }
{
    let read = trail.get(entry).ok_or(SourceFault::NoRead)?;
    if !read.operation.is_read() {
        return Err(SourceFault::NoRead);
    }
    if !read.has_word(word) {
        return Err(SourceFault::NoWord);
    }
    let latest = latest(trail, read.address(word), read.stamp);
    Ok(latest.map(|found| (found.entry, found.value)))
}
