//! What is written as a line is read back. The function does nothing; what it promises is proved.

ghost use Rattle.script.specs.Written.{LinesAreReadBack};

/// Whatever call or making is written as a line is read as what it was.
#[tactic(auto, using(crate::proofs::ReadingBack::lines_read))]
pub fn lines_are_read_back()
    ensures { LinesAreReadBack }
{}
