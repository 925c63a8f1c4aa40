//! The TMS9900's assembler source: its operations by name, the operands of each, the words of an instruction line and
//! the text of an instruction. The definitions are in `specs/`.
#![tactic(auto)]

mod causes;
mod mnemonic;
mod operand_kind;

pub use crate::causes::FormError;
pub use crate::mnemonic::Mnemonic;
pub use crate::operand_kind::OperandKind;
