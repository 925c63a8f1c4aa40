//! A text as tokens, and the value of these with the names of a source.

pub(crate) mod arithmetic;
pub(crate) mod evaluate;
pub(crate) mod expression;
pub(crate) mod fold;
pub(crate) mod scan;
pub(crate) mod symbols;
pub(crate) mod token;
pub(crate) mod values;
