//! What entries cover, and which of them may be a source. The functions do nothing; what they promise is proved.

ghost use Rattle.trail.specs.Addresses.{CoversOwnWords};
ghost use Rattle.trail.specs.Sources.{WritesBelow};

/// An entry covers the addresses of its words, with its values there, and no others.
#[tactic(auto, using(crate::proofs::Covering::covers_own_words))]
pub fn entries_cover_their_words()
    ensures { CoversOwnWords }
{}

/// What may be a source is a write that covers the address and is below the reader, and every such write may be.
#[tactic(auto, using(crate::proofs::Sources::writes_are_below))]
pub fn sources_are_writes_below()
    ensures { WritesBelow }
{}
