//! Worked cases of the rules and worked scripts, computed from the definitions. The functions do nothing; what they
//! promise is proved.

ghost use Rattle.console.specs.Cases.{WorkedCases};
ghost use Rattle.console.specs.WorkedScripts.{WorkedScripts};

/// Clocks, stamps, a line that changes hands, pair order, the end of numbers, and a block past the last.
pub fn worked_cases_come_out()
    ensures { WorkedCases }
{}

/// A word that a processor stores to a device and reads back, byte by byte; an empty script; a board that does not fit.
#[tactic(auto, using(crate::proofs::Working::worked))]
pub fn worked_scripts_come_out()
    ensures { WorkedScripts }
{}
