//! The checks of a line of an assembler source: what it says, where it leads, and its outcome.
#![tactic(auto)]

mod directives;
mod failure;
mod first_checks;
mod moves;
mod name_lists;
mod names;
mod second_checks;
mod statement;
mod titles;
mod values;

pub use crate::failure::{Failure, is_unresolved};
pub use crate::first_checks::{Checked, EarlierLines, ParsedLine, location_after};
pub use crate::moves::{LocationChange, after, declared_size};
pub use crate::second_checks::Outcome;
pub use crate::statement::{InstructionLine, Statement, statement_in};
pub use crate::titles::title_in;
pub use crate::values::Scope;
