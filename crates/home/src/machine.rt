//! A home: the state of the machine.

ghost use Rattle.std.specs.Prelude.{◌≡◌};
ghost use Rattle.home.specs.Homes.{new_home, settled_home};

use crate::directory::{Directory, Phase};
use message::table::Table;
use ordering::clock::{Clock, Settle};
use ordering::operation::Words;

/// `N` is the width of the clock's numbers, as for `Clock`.
#[derive(Clone, Copy, Debug, PartialEq, Eq)]
pub struct Home<N = u32> {
    pub clock: Clock<N>,
    /// The block's words; while one holds it exclusively, that one's may be newer.
    pub words: Words,
    /// Who holds a copy, and the request under way.
    pub directory: Directory,
}

impl Home {
    /// A free home of which nobody holds a copy.
    pub fn new(clock: u32, words: Words) -> Home
        ensures { result ≡ new_home clock words }
    {
        Home {
            clock: Clock {
                global: clock,
                local: 0,
            },
            words,
            directory: Directory {
                holders: Table::blank(),
                exclusive: false,
                phase: Phase::Free,
            },
        }
    }
}

/// The same home in the wider numbers.
impl From<Home> for Home<u64> {
    ghost from_gives = { λ home wide. wide ≡ home };

    fn from(home: Home) -> Home<u64> {
        Home {
            clock: home.clock.into(),
            words: home.words,
            directory: home.directory,
        }
    }
}

impl Settle for Home<u64> {
    type Rest = Home;

    ghost settled = { settled_home };

    fn settled(self) -> Option<Home> {
        Some(Home {
            clock: self.clock.settled()?,
            words: self.words,
            directory: self.directory,
        })
    }
}
