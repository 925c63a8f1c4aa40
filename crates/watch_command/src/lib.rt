//! `watch`: the words that say what is watched, and the run of a program whose items are watched.
#![tactic(auto)]

mod item;
mod items;
mod run;
mod size;
mod words;

pub use crate::item::item_word;
pub use crate::items::WatchedItems;
pub use crate::run::watch_program;
pub use crate::words::{item_words, watch_words};
