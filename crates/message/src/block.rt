//! The numbers of the sixteen blocks.

ghost use Rattle.std.specs.Prelude.{◌≡◌, ℕ, ◌<◌, if◌then◌else◌, nat_lt, Some, None};
ghost use Rattle.message.specs.Nodes.{home_node};

use std::marker::Model;

/// The number of a block: it is below 16.
#[derive(Clone, Copy, Debug, PartialEq, Eq)]
pub struct Block {
    number: u32,
}

impl Model for Block {
    ghost Value = { ℕ };

    ghost view = { λ b. b.number };

    ghost invariant = { λ b. b.number < 16 };

    ghost inverse = { λ n. record { number = n } };
}

impl Block {
    // Not a `TryFrom`: of a number that is no block's, nobody asks why.
    /// None from 16 up.
    pub fn new(number: u32) -> Option<Block>
        ensures { result ≡ (if nat_lt number 16 then Some number else None) }
    {
        if number < 16 {
            return Some(Block { number });
        }
        None
    }

    pub fn number(self) -> u32
        ensures value { result ≡ self }
        ensures small { result < 16 }
    {
        self.number
    }

    /// The node of the block's home.
    pub fn home(self) -> u32
        ensures { result ≡ home_node self }
    {
        16 + self.number
    }
}
