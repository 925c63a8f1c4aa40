//! The module that an assembler source stands for: its directives, where its lines are placed, and the words that they
//! place. The definitions are in `specs/`.
#![tactic(auto)]

mod causes;
mod content;
mod directive;
mod location;

pub use crate::causes::AsmCause;
pub use crate::content::Content;
pub use crate::directive::Directive;
pub use crate::location::{Location, Part};
