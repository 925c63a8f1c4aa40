//! The operations that no other family has, run on the machine: EX, which exchanges two values, RAND, which draws a
//! number, BACK, which sets the colour of the border, and ALL, which fills the screen.
#![tactic(auto)]

mod border;
mod family;
mod pieces;
mod random;
mod screen;

pub use family::run_misc;
pub use pieces::{
    begin_fill, draw_number, draw_seed, fill_byte, keep_destination, set_border, turn_to_source,
};
