//! The characters of source text.

ghost use Rattle.std.specs.Prelude.{◌≡◌};
ghost use Rattle.source_defs.specs.Characters as spec;
ghost use Rattle.source_defs.specs.Names as names;

/// Whether a byte is a line feed, which ends a line.
pub fn is_line_feed(byte: u8) -> bool
    ensures { result ≡ spec.is_line_feed byte }
{
    byte == b'\n'
}

pub(crate) fn is_carriage_return(byte: u8) -> bool
    ensures { result ≡ spec.is_carriage_return byte }
{
    byte == b'\r'
}

/// Whether a byte is a blank: a space or a tab.
pub fn is_blank(byte: u8) -> bool
    ensures { result ≡ spec.is_blank byte }
{
    byte == b' ' || byte == b'\t'
}

/// Whether a byte is a quote.
pub fn is_quote(byte: u8) -> bool
    ensures { result ≡ spec.is_quote byte }
{
    byte == b'\''
}

/// Whether a byte is a comma, which parts operands.
pub fn is_comma(byte: u8) -> bool
    ensures { result ≡ spec.is_comma byte }
{
    byte == b','
}

pub(crate) fn is_asterisk(byte: u8) -> bool
    ensures { result ≡ spec.is_asterisk byte }
{
    byte == b'*'
}

pub(crate) fn is_digit(byte: u8) -> bool
    ensures { result ≡ spec.is_digit byte }
{
    byte.is_ascii_digit()
}

pub(crate) fn is_letter(byte: u8) -> bool
    ensures { result ≡ spec.is_letter byte }
{
    byte.is_ascii_alphabetic()
}

pub(crate) fn is_letter_or_digit(byte: u8) -> bool
    ensures { result ≡ names.is_letter_or_digit byte }
{
    byte.is_ascii_alphanumeric()
}

/// Whether a byte is a character that prints, other than the space: from >21 to >7E.
pub fn is_printed(byte: u8) -> bool
    ensures { result ≡ names.is_printed byte }
{
    byte.is_ascii_graphic()
}

/// A byte, a letter of which is taken in upper case.
pub fn upper_case(byte: u8) -> u8
    ensures { result ≡ spec.upper_case byte }
{
    byte.to_ascii_uppercase()
}
