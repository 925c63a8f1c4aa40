//! The listing of memory as assembler source, what it is assembled to, and how that is linked. The definitions and the
//! laws are in `specs/`.
#![tactic(auto)]

mod laws;

pub use laws::{
    entered_listings_come_back, entered_listings_link, inner_listings_come_back,
    modules_of_words_link, word_listings_are_short, word_listings_come_back,
};
