//! Runs of the commands of `ti_bench` over sources, shelves and sinks in memory, most of which fail at a call that a
//! test names. Other runs are in `tests/rows`. The crate holds tests alone, so that the crates below it are proved once.
#![tactic(auto)]

#[cfg(test)]
mod failing_ends;
#[cfg(test)]
mod failing_rows;
#[cfg(test)]
mod run;
#[cfg(test)]
mod statuses;
#[cfg(test)]
mod streams;
