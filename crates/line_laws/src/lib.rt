//! Lines of a source whose places are known: the outcome of each by itself, and the module of them all. The definitions
//! and the laws are in `specs/`.
#![tactic(auto)]

mod laws;

pub use laws::{
    fed_texts_have_their_lines, known_lines_are_assembled, known_lines_have_their_words,
};
