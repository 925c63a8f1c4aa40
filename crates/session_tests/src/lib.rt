//! Cases of the interpreter as it is built from its source, of programs that it runs step by step, of programs that are
//! watched, and of one that is played from the middle of its run, worked out by hand. The crate holds tests alone, so
//! that the crates below it are proved once.
#![tactic(auto)]

#[cfg(test)]
mod building;
#[cfg(test)]
mod played;
#[cfg(test)]
mod programs;
#[cfg(test)]
mod rows;
#[cfg(test)]
mod sessions;
#[cfg(test)]
mod watched;
