//! The tokens that an expression is made of.

use crate::name::Name;
use source_defs::Span;

/// What a token is.
#[derive(Clone, Copy, Debug, PartialEq, Eq)]
pub enum TokenKind {
    /// A number, decimal or hexadecimal.
    Number(u16),
    /// A name, with its letters in upper case.
    Name(Name),
    /// The sign `$`, the location of the line.
    Here,
    /// A quoted text with its quotes.
    Text,
    /// An operator: `+`, `-`, `*` or `/`.
    Sign(u8),
}

/// A token, and where it is in its text.
#[derive(Clone, Copy, Debug, PartialEq, Eq)]
pub struct Token {
    /// What the token is.
    pub kind: TokenKind,
    /// Where the token stands.
    pub span: Span,
}
