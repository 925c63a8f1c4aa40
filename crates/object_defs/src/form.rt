//! The two forms of an object text.

/// How the numbers of an object text are written, and by which tag its modules begin.
#[derive(Clone, Copy, Debug, PartialEq, Eq)]
pub enum TextForm {
    /// In printed characters: a number is four hexadecimal digits, and a module begins with the tag `0`.
    Plain,
    /// Compressed: a number is two bytes, and a module begins with the tag >01.
    Compressed,
}
