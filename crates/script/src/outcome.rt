//! What a line came to, and how that is written.

ghost use Rattle.script.specs.declared.fault.ScriptFault.TheVariants as fault;

use crate::fault::ScriptFault;
use list::Record;
use std::fmt;

/// The value that the call answered, if it did; or why the line was refused.
#[derive(Clone, Copy, Debug, PartialEq, Eq)]
pub struct Outcome {
    pub result: Result<Option<u32>, ScriptFault>,
}

impl Record for Outcome {
    const MOST: usize = 65_536;

    ghost MOST = { 65536 };
}

/// `ok` and the value, or `no`, the fault's number and its place.
impl fmt::Display for Outcome {
    ghost use Rattle.std.specs.Prelude.{Some};
    ghost use Rattle.script.specs.Outcomes.{outcome_line};

    ghost output = { λ outcome. Some (outcome_line outcome) };

    fn fmt<W: fmt::Write>(&self, f: &mut fmt::Formatter<W>) -> fmt::Result {
        match self.result {
            Ok(None) => write!(f, "ok"),
            Ok(Some(value)) => write!(f, "ok\t{value}"),
            Err(fault) => {
                let number = fault.number();
                let place = fault.place();
                write!(f, "no\t{number}\t{place}")
            }
        }
    }
}
