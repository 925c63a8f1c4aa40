//! Instruction lines of the TMS9900 assembler, both ways.
#![tactic(auto)]

mod first_checks;
mod forms;
mod instruction;
mod mnemonics;
mod operand_kinds;
mod operands_text;
mod operations;
mod parse;
mod placed;
mod print;
mod ranges;
mod sizes;
mod text;
mod up_to_two;
mod values;

pub use first_checks::{Skeleton, size_in, skeleton_of};
pub use forms::{Form, Mode};
pub use instruction_defs::FormError;
pub use parse::{parse_instr, size_of, words_of};
pub use placed::{Placed, Word};
pub use print::print_instr;
pub use up_to_two::UpToTwo;
