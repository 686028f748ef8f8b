//! A value for each of a few places, such as the request that a node has out for each block. Any number may be asked
//! for: past the last place stands the blank value.

ghost use Rattle.std.specs.Prelude.{◌≡◌, None, false};
ghost use Rattle.message.specs.Requests.{is_out};
ghost use Rattle.message.specs.Tables.{blank_table, at_place, with_at};

use crate::kind::Kind;

/// A kind of value, with the one that stands where nothing was put.
pub trait Blank: Copy {
    ghost BLANK: { Self };

    const BLANK: Self;
}

#[derive(Clone, Copy, Debug, PartialEq, Eq)]
pub struct Table<T, const N: usize> {
    pub at: [T; N],
}

impl<T: Blank, const N: usize> Table<T, N> {
    /// The blank value at every place.
    pub fn blank() -> Table<T, N>
        ensures { result ≡ blank_table T.BLANK }
    {
        Table { at: [T::BLANK; N] }
    }

    /// The value at a place.
    pub fn get(self, place: u32) -> T
        ensures { result ≡ at_place T.BLANK self place }
    {
        self.at.get(place as usize).copied().unwrap_or(T::BLANK)
    }

    /// The table once the value stands at a place; past the last place nothing changes.
    pub fn with(self, place: u32, value: T) -> Table<T, N>
        ensures { result ≡ with_at self place value }
    {
        // Not by `get_mut`: of what it lends, a proof knows no element afterwards.
        let mut next = self;
        if (place as usize) < N {
            next.at[place as usize] = value;
        }
        next
    }
}

impl Blank for bool {
    ghost BLANK = { false };

    const BLANK: bool = false;
}

impl<T: Copy> Blank for Option<T> {
    ghost BLANK = { None };

    const BLANK: Option<T> = None;
}

/// The request that a node has out, by block.
pub type Requests = Table<Option<Kind>, 16>;

impl Table<Option<Kind>, 16> {
    /// Whether a request of this kind is out for the block.
    pub fn is_out(self, block: u32, kind: Kind) -> bool
        ensures { result ≡ is_out self block kind }
    {
        self.get(block) == Some(kind)
    }
}
