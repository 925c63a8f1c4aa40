//! MUL and DIV of GPL, run on the machine. Each is built of pieces: stretches of at most
//! 16 instructions without a loop.
#![tactic(auto)]

mod family;
mod pieces;
mod product;
mod quotient;

pub use family::run_muldiv;
pub use pieces::{
    clear_overflow, compare_divisor, divide_bytes, divide_words, load_low_word, low_product,
    multiply, set_overflow, store_last, take_remainder,
};
pub use product::run_product;
pub use quotient::run_quotient;
