//! What the interpreter's words do, in terms of the machine that they run on and of the GPL state that it shows: the
//! match of the two, its halts, its start and its turns. The definitions are in `specs/`.
#![tactic(auto)]

mod laws;
mod turn;

pub use laws::one_machine_is_left;
pub use turn::Turn;
