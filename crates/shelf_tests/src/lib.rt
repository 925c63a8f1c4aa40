//! Cases of names of files, of shelves, and of sources and sinks, worked out by hand. The crate holds tests alone, so
//! that the crates below it are proved once.
#![tactic(auto)]

#[cfg(test)]
mod shelves;
#[cfg(test)]
mod streams;
