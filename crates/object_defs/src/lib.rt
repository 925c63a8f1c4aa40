//! Tagged object code: modules, their written text, and what a text reads as. The definitions are in `specs/`.
#![tactic(auto)]

mod causes;
mod form;
mod spot;
mod tag;

pub use causes::TagCause;
pub use form::TextForm;
pub use spot::{Piece, Spot};
pub use tag::{Kind, Tag};
