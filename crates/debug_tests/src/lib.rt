//! Runs of the commands of `ti_debug` over an input, a shelf and sinks in memory, in which a call fails. Other runs are
//! in `tests/rows`. The crate holds tests alone, so that the crates below it are proved once.
#![tactic(auto)]

#[cfg(test)]
mod failing_calls;
#[cfg(test)]
mod run;
#[cfg(test)]
mod streams;
