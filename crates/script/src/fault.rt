//! Why a line of a script is refused: it is not of the form, or the board refuses its call.

ghost use Rattle.std.specs.Prelude.{◌≡◌};
ghost use Rattle.script.specs.Faults.{fault_layer, fault_number, fault_place};
ghost use Rattle.script.specs.declared.fault.ScriptFault.TheVariants.{NotOfForm, Board};

use coherence::fault::{Fault, Layer};

/// A refusal of a line.
#[derive(Clone, Copy, Debug, PartialEq, Eq)]
pub enum ScriptFault {
    /// The line with this number, from 1, is not of the form.
    NotOfForm(usize),
    /// The board refuses the line's call.
    Board(Fault),
}

impl ScriptFault {
    /// Which layer refuses: the board where the line is not of the form.
    pub fn layer(self) -> Layer
        ensures { result ≡ fault_layer self }
    {
        match self {
            ScriptFault::NotOfForm(_) => Layer::Board,
            ScriptFault::Board(fault) => fault.layer(),
        }
    }

    /// The refusal's number, 1 to 17: 17 where the line is not of the form.
    pub fn number(self) -> u32
        ensures { result ≡ fault_number self }
    {
        match self {
            ScriptFault::NotOfForm(_) => 17,
            ScriptFault::Board(fault) => fault.number(),
        }
    }

    /// The refusal's place: the line's number where the line is not of the form.
    pub fn place(self) -> usize
        ensures { result ≡ fault_place self }
    {
        match self {
            ScriptFault::NotOfForm(line) => line,
            ScriptFault::Board(fault) => fault.place(),
        }
    }
}

impl From<Fault> for ScriptFault {
    ghost from_gives = { λ e r. r ≡ Board e };

    fn from(fault: Fault) -> ScriptFault {
        ScriptFault::Board(fault)
    }
}
