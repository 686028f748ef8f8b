//! A window over any device: it shows some of the device's words, from a first one, and hands on all else.

ghost use Rattle.std.specs.Prelude.{◌≡◌, ℕ, ◌-◌, min, List, length};
ghost use Rattle.device.specs.declared.window.Window.{Window};
ghost use Rattle.device.specs.Windows.{window, viewed, window_meaning, shown, moved, seen_at, Shows};
ghost use Rattle.device.specs.Showing.{window_laws};

use crate::meaning::{Device, NoWord, Wish};
use ordering::operation::{Operation, Words};

// The wish of a word that is not shown goes out with a place all the same, so this is a number and no `None`.
/// Where a word stands that the window does not show: past the words of any device.
const NOT_SHOWN: u32 = 64;

/// Shows `size` words of a device from `first`, and hands on all else.
#[derive(Debug, Drop, PartialEq, Eq)]
pub struct Window<D> {
    device: D,
    first: u32,
    size: u32,
}

// How many words are shown of a device that has `count`.
fn shown_count(first: u32, size: u32, count: u32) -> u32
    ensures { result ≡ min size (count - first) }
{
    count.saturating_sub(first).min(size)
}

// Where a window of `count` words from `first` shows the word that the device has at `place`.
fn seen_at(first: u32, count: u32, place: u32) -> u32
    ensures { result ≡ seen_at first count place }
{
    place
        .checked_sub(first)
        .filter(|seen| *seen < count)
        .unwrap_or(NOT_SHOWN)
}

// The wish of the device below, with its word moved to where the window shows it.
fn moved(first: u32, count: u32, wish: Wish) -> Wish
    ensures { result ≡ moved first count wish }
{
    match wish.operation {
        Operation::LdIo | Operation::StIo => Wish {
            place: seen_at(first, count, wish.place),
            ..wish
        },
        _ => wish,
    }
}

impl<D: Device> Window<D> {
    /// Shows `size` words of the device from `first`, or as many of them as it has.
    pub fn new(device: D, first: u32, size: u32) -> Window<D>
        ensures { result ≡ window device first size }
    {
        Window {
            device,
            first,
            size,
        }
    }

    // Where the device below has a word that is shown.
    #[tactic(auto, using(crate::specs::Showing::shown_at))]
    fn place_below(&self, place: u32) -> Option<u32>
        ensures { Shows self.now.first self.now.size (D.Device.meaning.words (D.Device.state self.now.device))
            place result }
    {
        let count = self.device.count();
        if place < shown_count(self.first, self.size, count) {
            return Some(self.first + place);
        }
        None
    }
}

impl<D: Device> Device for Window<D> {
    ghost State = { Window D.Device.State };

    ghost state = { viewed D.Device.state };

    ghost meaning = { window_meaning D.Device.meaning };

    ghost lawful = { window_laws D.Device.meaning D.Device.lawful };

    #[tactic(auto, using(crate::specs::Showing::length_shown))]
    fn count(&self) -> u32 {
        shown_count(self.first, self.size, self.device.count())
    }

    fn wish(&self) -> Option<Wish> {
        let wish = self.device.wish()?;
        Some(moved(self.first, self.count(), wish))
    }

    fn read(&mut self, place: u32) -> Result<u32, NoWord> {
        let below = self.place_below(place).ok_or(NoWord { place })?;
        self.device.read(below)
    }

    fn write(&mut self, place: u32, value: u32) -> Result<(), NoWord> {
        let below = self.place_below(place).ok_or(NoWord { place })?;
        self.device.write(below, value)
    }

    fn accepted(&mut self, word: u32) {
        self.device.accepted(word);
    }

    fn landed(&mut self, block: u32, words: Words) {
        self.device.landed(block, words);
    }
}
