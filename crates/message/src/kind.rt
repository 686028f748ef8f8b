//! The twenty kinds of message.

ghost use Rattle.std.specs.Prelude.{◌≡◌};
ghost use Rattle.message.specs.Kinds.{kind_number, is_request, request_numbered};

#[derive(Clone, Copy, Debug, PartialEq, Eq)]
pub enum Kind {
    Gets = 1,
    Getx,
    Upg,
    Wb,
    Rblk,
    Wblk,
    Rio,
    Wio,
    Int,
    Inv,
    Down,
    Ack,
    SData,
    XData,
    Grant,
    Done,
    Words,
    Value,
    Nack,
    Taken,
}

impl Kind {
    /// From 1 to 20.
    pub fn number(self) -> u32
        ensures { result ≡ kind_number self }
    {
        self as u32
    }

    /// Whether a home is asked for its block by it.
    pub fn is_request(self) -> bool
        ensures { result ≡ is_request self }
    {
        matches!(
            self,
            Kind::Gets | Kind::Getx | Kind::Upg | Kind::Wb | Kind::Rblk | Kind::Wblk
        )
    }

    // Not a `TryFrom`: every kind has a number, and a processor asks for four of them.
    /// The kind that a processor may ask for by its number.
    pub fn requested(number: u32) -> Option<Kind>
        ensures { result ≡ request_numbered number }
    {
        match number {
            1 => Some(Kind::Gets),
            2 => Some(Kind::Getx),
            3 => Some(Kind::Upg),
            4 => Some(Kind::Wb),
            _ => None,
        }
    }
}
