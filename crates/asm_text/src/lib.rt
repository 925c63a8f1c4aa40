//! Source text: its lines, the fields of a line, names, and the tokens and values of expressions.
//!
//! `Lines` and `Fields` are in modules of other names than `lines` and `fields`, since `rt` refuses two items of one
//! module whose names differ in case alone.
#![tactic(auto)]

mod characters;
mod digits;
mod expressions;
mod laws;
mod name;
mod numbers;
mod operand_fields;
mod places;
mod text_lines;
mod words;

pub use crate::characters::{is_blank, is_comma, is_line_feed, is_printed, is_quote, upper_case};
pub use crate::digits::{byte_digits, push_byte, push_word, word_digits};
pub use crate::expressions::expression::expression_value;
pub use crate::expressions::fold::value;
pub use crate::expressions::scan::tokens;
pub use crate::expressions::symbols::{DefineError, Symbols};
pub use crate::expressions::token::{Token, TokenKind};
pub use crate::expressions::values::Value;
pub use crate::laws::{fields_of_a_line, least_places, lines_of_a_text};
pub use crate::name::Name;
pub use crate::numbers::{decimal_up_to, hexadecimal_number};
pub use crate::operand_fields::operand_field::operands;
pub use crate::operand_fields::operand_iter::Operands;
pub use crate::operand_fields::operand_lists::{
    one_operand, operand_count, operand_list, optional_operand,
};
pub use crate::operand_fields::parentheses::parentheses_at;
pub use crate::operand_fields::quoted_texts::{
    between_quotes, character_count, is_quoted, quoted, quoted_characters,
};
pub use crate::text_lines::line_fields::{Fields, SplitLine};
pub use crate::text_lines::line_iter::Lines;
pub use crate::text_lines::split::{fields, split_line, upper_case_name};
pub use crate::text_lines::text::{lines, part};
pub use crate::words::{is_name, is_word, named_in, word_key};
pub use expression_defs::ExprError;
pub use source_defs::{Line, OperandError, Span, TextError};
