//! The program that a GPL source stands for: its instructions and directives by their names, where its lines are
//! placed, and the image that they make. The definitions are in `specs/`.
#![tactic(auto)]

mod causes;
mod directive;
mod location;
mod mnemonic;

pub use crate::causes::GplCause;
pub use crate::directive::Directive;
pub use crate::location::Location;
pub use crate::mnemonic::Mnemonic;
