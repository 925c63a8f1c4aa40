//! The subroutines of the interpreter, run on the machine: the next GPL byte, the place of an operand,
//! loading and storing a value, and setting the address of GROM. Each is built of pieces: stretches of at
//! most 16 instructions without a loop.
#![tactic(auto)]

mod address;
mod fetch;
mod load;
mod seek;
mod store;

pub use address::{
    add_index, address_routine, check_index, check_range, check_short, read_address, read_pointer,
    run_address,
};
pub use fetch::{fetch_byte, run_fetch};
pub use load::{load_routine, load_value, load_video, run_load, stream_value};
pub use seek::{run_seek, seek_address};
pub use store::{run_store, store_register, store_routine, store_value, store_video};
