//! Making a board: it refuses nothing, and a board outside its figures refuses every later call.

ghost use Rattle.std.specs.Prelude.{◌≡◌, ◌<◌, ◌≤◌, true, length, slice_index};
ghost use Rattle.coherence.specs.Makings.{block_words};
ghost use Rattle.home.specs.Homes.{new_home};
ghost use Rattle.raster.specs.Boards.{Made, homes_from, figures_fit};

use crate::board::{Board, Tables};
use bridge::state::Bridge;
use device::meaning::Device;
use home::machine::Home;
use list::List;
use message::message::Message;
use ordering::clock::END;
use ordering::operation::Words;
use processor::state::Processor;
use trail::entry::Entry;

// A word that was not lent is 0; no call reads it.
fn word_at(words: &[u32], place: usize) -> u32
    ensures { result ≡ slice_index words.now place }
{
    words.get(place).copied().unwrap_or(0)
}

// A place in memory, and so no `Block`.
fn block_words(words: &[u32], block: usize) -> Words
    requires { block < 16 }
    ensures { result ≡ block_words words.now block }
{
    let first = 4 * block;
    Words {
        at: [first, first + 1, first + 2, first + 3].map(|place| word_at(words, place)),
    }
}

fn homes_from(words: &[u32], clock: u32) -> [Home; 16]
    ensures { result ≡ homes_from words.now clock }
{
    // Not `array::from_fn`: what it made was not proved to be what its closure says.
    let mut homes = [Home::new(clock, Words::ZERO); 16];
    for block in 0..16 {
        homes[block] = Home::new(clock, block_words(words, block));
    }
    homes
}

// 1 to 4 processors, a clock up to its end, 64 words, devices of 1 to 64 words.
fn fits(processors: u32, clock: u32, words: usize, first: u32, second: u32) -> bool
    ensures value { result ≡ figures_fit processors clock words first second }
    ensures few { result ≡ true → processors ≤ 4 }
{
    (1..=4).contains(&processors)
        && clock <= END
        && words == 64
        && (1..=64).contains(&first)
        && (1..=64).contains(&second)
}

impl<A: Device, B: Device> Board<A, B> {
    /// A board with all clocks at `clock` and the words in its homes; both lists are emptied.
    pub fn make(
        processors: u32,
        clock: u32,
        words: &[u32],
        first: A,
        second: B,
        messages: &mut List<Message>,
        trail: &mut List<Entry>,
    ) -> Board<A, B>
        ensures { Made A.Device B.Device processors clock words.now first second
            messages.old trail.old result messages.new trail.new }
    {
        messages.clear();
        trail.clear();
        let fit = fits(
            processors,
            clock,
            words.len(),
            first.count(),
            second.count(),
        );
        let homes = homes_from(words, clock);
        let tables = Tables {
            fit,
            count: processors,
            processors: [Processor::new(clock); 4],
            homes,
        };
        Board {
            tables,
            first: Bridge::new(clock, first),
            second: Bridge::new(clock, second),
        }
    }
}
