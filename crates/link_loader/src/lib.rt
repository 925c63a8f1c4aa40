//! The linking loader: the modules of a program, placed in memory and linked.
#![tactic(auto)]

mod chains;
mod error;
mod laws;
mod linked;
mod load;
mod names;
mod parts;
mod places;
mod table;
mod views;

pub use error::LinkError;
pub use laws::{chains_are_followed, placed_words_are_held};
pub use linked::Linked;
pub use load::link;
