//! What is found is a source. The functions do nothing; what they promise is proved.

ghost use Rattle.queries.specs.Search.{LatestWrite};

/// A source is a write that covers the address, below the reader and with no greater such write, the first of equal
/// ones; there is none exactly where there is no such write.
#[tactic(auto, using(crate::proofs::Latest::latest_write))]
pub fn sources_are_latest()
    ensures { LatestWrite }
{}
