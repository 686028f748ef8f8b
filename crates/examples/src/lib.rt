//! Examples of calls of the libraries above the leaves, as tests: machines that are handed one message at a time, whole
//! boards, and sources. They have a crate of their own, since a crate is proved once more for its tests.

#![tactic(auto)]

#[cfg(test)]
mod boards;
#[cfg(test)]
mod machines;
#[cfg(test)]
mod sources;
