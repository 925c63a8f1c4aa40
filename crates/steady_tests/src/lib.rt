//! Runs of `bench` over inputs that never fail, with outputs that never do. The crate holds tests alone, so that the
//! crates below it are proved once, and so few of them that no process holds the commands twice.
#![tactic(auto)]

#[cfg(test)]
mod answers;
