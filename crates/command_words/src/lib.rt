//! The words of a command line, and the commands that they say.
#![tactic(auto)]

mod arguments;
mod command;
mod numbers;
mod words;

pub use crate::arguments::program_words;
pub use crate::command::{command_name, name_in, read_command};
pub use crate::numbers::{address_word, number_word};
pub use crate::words::Words;
