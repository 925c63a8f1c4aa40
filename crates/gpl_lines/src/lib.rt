//! The lines of a GPL source: what each says, and its outcome.
#![tactic(auto)]

mod directives;
mod failure;
mod first_checks;
mod forms;
mod mnemonics;
mod numbers;
mod second_checks;
mod skeleton;
mod skeletons;
mod statement;
mod values;

pub use crate::failure::Failure;
pub use crate::first_checks::Checked;
pub use crate::second_checks::Outcome;
pub use crate::skeleton::{Route, Skeleton, Source};
pub use crate::statement::Statement;
pub use crate::values::Scope;
