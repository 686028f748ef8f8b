//! The figures of a board, and which ends a message may have on it.

ghost use Rattle.std.specs.Prelude.{◌≡◌};
ghost use Rattle.message.specs.Checks.{has_processor, word_count, end_fits};

use crate::block::Block;
use crate::form::End;
use crate::node::is_device;

/// How many processors a board has, and how many words each of its devices.
#[derive(Clone, Copy, Debug, PartialEq, Eq)]
pub struct Figures {
    /// No more than 4 of them are there.
    pub processors: u32,
    pub counts: [u32; 2],
}

impl Figures {
    /// Whether the node is a processor of this board.
    pub fn has_processor(self, node: u32) -> bool
        ensures { result ≡ has_processor self node }
    {
        node < 4 && node < self.processors
    }

    /// How many words the device at the node has; what is no device has none.
    pub fn word_count(self, node: u32) -> u32
        ensures { result ≡ word_count self node }
    {
        match node {
            4 => self.counts[0],
            5 => self.counts[1],
            _ => 0,
        }
    }

    // Whether the node is such an end of a message with this place.
    pub(crate) fn allow(self, end: End, node: u32, place: u32) -> bool
        ensures { result ≡ end_fits self end node place }
    {
        match end {
            End::Processor => self.has_processor(node),
            End::Device => is_device(node),
            End::Requester => self.has_processor(node) || is_device(node),
            End::Home => Block::new(place).is_some_and(|block| node == block.home()),
            End::Owner => place < self.word_count(node),
            End::Target => self.has_processor(node) && node == place,
        }
    }
}
