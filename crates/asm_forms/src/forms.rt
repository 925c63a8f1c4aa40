//! The forms of operands.

ghost use Rattle.std.specs.Prelude.{◌≡◌, ◌≤◌, ◌+◌, drop, length, slice_range};
ghost use Rattle.source_defs.specs.Parentheses.{last_place};
ghost use Rattle.instruction_defs.specs.Forms as spec;
ghost use Rattle.instruction_defs.specs.SecondChecks as second;
ghost use Rattle.asm_forms.specs.Forms.{form_by, operand_in, HasRoom, LiesIn};

use asm_text::parentheses_at;

/// How an operand is written (Editor/Assembler manual, "Addressing Modes").
#[derive(Clone, Copy)]
pub enum Mode {
    /// An expression alone.
    Plain,
    /// `*R`.
    Indirect,
    /// `*R+`.
    Increment,
    /// `@e`.
    Symbolic,
    /// `@e(R)`, by how many bytes are between the sign and the parenthesis that opens.
    Indexed(u16),
}

/// An operand by its place in the operand field, and how it is written.
#[derive(Clone, Copy)]
pub struct Form {
    /// The place of its first byte.
    pub start: u16,
    /// The place after its last byte.
    pub end: u16,
    /// How it is written.
    pub mode: Mode,
}

/// How an operand is written.
#[tactic(auto, unfolding(instruction_defs::specs::Forms::form_of))]
pub(crate) fn mode_of(text: &[u8]) -> Mode
    requires { length text.now ≤ 65535 }
    ensures form { form_by result text.now ≡ spec.form_of text.now }
    ensures room { HasRoom result (length text.now) }
{
    match text {
        [b'*', rest @ ..] => match rest {
            [.., b'+'] => Mode::Increment,
            _ => Mode::Indirect,
        },
        [b'@', rest @ ..] => match parentheses_at(rest) {
            Some(place) => Mode::Indexed(place as u16),
            None => Mode::Symbolic,
        },
        _ => Mode::Plain,
    }
}

/// The text of an operand.
pub(crate) fn operand_text<'a>(field: &'a [u8], form: &Form) -> &'a [u8]
    requires { LiesIn field.now form.now }
    ensures { result.now ≡ operand_in field.now form.now }
{
    &field[usize::from(form.start)..usize::from(form.end)]
}

/// The text of an operand's first expression.
pub(crate) fn first_text(mode: Mode, text: &[u8]) -> &[u8]
    requires { HasRoom mode (length text.now) }
    ensures { result.now ≡ second.text_in (form_by mode text.now) }
{
    match mode {
        Mode::Plain => text,
        Mode::Indirect | Mode::Symbolic => after_sign(text),
        Mode::Increment => without_last(after_sign(text)),
        Mode::Indexed(place) => &after_sign(text)[..usize::from(place)],
    }
}

/// The text of an index register, after a given number of bytes and a parenthesis.
pub(crate) fn index_text(place: u16, text: &[u8]) -> &[u8]
    requires { place + 3 ≤ length text.now }
    ensures { result.now ≡ slice_range (drop 1 text.now) (place + 1) (last_place (drop 1 text.now)) }
{
    let rest = after_sign(text);
    &rest[usize::from(place) + 1..rest.len() - 1]
}

/// A text without its first byte.
fn after_sign(text: &[u8]) -> &[u8]
    requires { 1 ≤ length text.now }
    ensures { result.now ≡ drop 1 text.now }
{
    &text[1..]
}

/// A text without its last byte.
fn without_last(text: &[u8]) -> &[u8]
    requires { 1 ≤ length text.now }
    ensures { result.now ≡ spec.without_last text.now }
{
    &text[..text.len() - 1]
}
