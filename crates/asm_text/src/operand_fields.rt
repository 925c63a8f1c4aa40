//! An operand field as operands, and the forms that operands have.

pub(crate) mod operand_field;
pub(crate) mod operand_iter;
pub(crate) mod operand_lists;
pub(crate) mod parentheses;
pub(crate) mod quoted_texts;
