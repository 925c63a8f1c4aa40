//! What source text means: the types that definitions and code share. The definitions are in `specs/`.
#![tactic(auto)]

mod causes;
mod laws;
mod text;

pub use crate::causes::{OperandError, TextError};
pub use crate::laws::texts_have_their_lines;
pub use crate::text::{Line, Span};
