//! The forms of operands.

ghost use Rattle.std.specs.Prelude.{◌≡◌};
ghost use Rattle.std.specs.Option.{option_map};
ghost use Rattle.source_defs.specs.Characters.{is_at_sign};
ghost use Rattle.gpl_source_defs.specs.Forms as spec;
ghost use Rattle.gpl_lines.specs.Defined.{model_of_form};

use asm_text::{parentheses_at, upper_case};
use gpl_defs::{Space, TwoName};
use gpl_forms::has_immediate;

/// An operand in memory, by the texts of its address and of its index.
#[derive(Clone, Copy)]
pub(crate) struct Memory<'a> {
    pub(crate) space: Space,
    pub(crate) indirect: bool,
    pub(crate) address: &'a [u8],
    pub(crate) index: Option<&'a [u8]>,
}

/// How an operand is written, by the texts of its expressions.
#[derive(Clone, Copy)]
pub(crate) enum Form<'a> {
    /// `@e`, `V@e`, `*e` or `V*e`, with `(@e)` after it or without.
    InMemory(Memory<'a>),
    /// `G@e`, with `(@e)` after it or without.
    InGrom(&'a [u8], Option<&'a [u8]>),
    /// `R@e`.
    Register(&'a [u8]),
    /// An expression alone.
    Alone(&'a [u8]),
}

/// The form of an operand.
#[tactic(auto, unfolding(gpl_source_defs::specs::Forms::form_of))]
pub(crate) fn form_of(text: &[u8]) -> Form<'_>
    ensures { model_of_form result ≡ spec.form_of text.now }
{
    match text {
        [b'@', rest @ ..] => in_memory(Space::Cpu, false, rest),
        [b'*', rest @ ..] => in_memory(Space::Cpu, true, rest),
        _ => lettered_form(text),
    }
}

/// The form of an operand that begins with no sign.
fn lettered_form(text: &[u8]) -> Form<'_>
    ensures { model_of_form result ≡ spec.lettered_form text.now }
{
    match text {
        [letter, sign, rest @ ..] => signed_form(text, upper_case(*letter), *sign, rest),
        _ => Form::Alone(text),
    }
}

/// The form of an operand that begins with a letter and a sign.
fn signed_form<'a>(text: &'a [u8], letter: u8, sign: u8, rest: &'a [u8]) -> Form<'a>
    ensures { model_of_form result ≡ spec.signed_form text.now letter sign rest.now }
{
    match (letter, sign) {
        (b'V', b'@') => in_memory(Space::Vdp, false, rest),
        (b'V', b'*') => in_memory(Space::Vdp, true, rest),
        (b'G', b'@') => {
            let (address, index) = indexed(rest);
            Form::InGrom(address, index)
        }
        (b'R', b'@') => Form::Register(rest),
        _ => Form::Alone(text),
    }
}

/// An operand in memory, by what comes after its sign.
fn in_memory(space: Space, indirect: bool, text: &[u8]) -> Form<'_>
    ensures { model_of_form result ≡ spec.in_memory space indirect text.now }
{
    let (address, index) = indexed(text);
    Form::InMemory(Memory {
        space,
        indirect,
        address,
        index,
    })
}

/// The text of an address, and the text of an index if it has one: `(@e)` at the end.
fn indexed(text: &[u8]) -> (&[u8], Option<&[u8]>)
    ensures address { result.0.now ≡ spec.address_text text.now }
    ensures index { option_map (λ index. index.now) result.1 ≡ spec.index_text text.now }
{
    match parentheses_at(text) {
        Some(place) if is_at_sign(text[place + 1]) => {
            (&text[..place], Some(&text[place + 2..text.len() - 1]))
        }
        _ => (text, None),
    }
}

/// Whether a byte is the sign of an address.
fn is_at_sign(byte: u8) -> bool
    ensures { result ≡ is_at_sign byte }
{
    byte == b'@'
}

impl Form<'_> {
    /// Whether an operand lies in memory.
    pub(crate) fn is_in_memory(&self) -> bool
        ensures { result ≡ spec.is_in_memory (model_of_form self.now) }
    {
        matches!(self, Form::InMemory(_))
    }

    /// Whether an operand is an expression alone.
    pub(crate) fn is_alone(&self) -> bool
        ensures { result ≡ spec.is_alone (model_of_form self.now) }
    {
        matches!(self, Form::Alone(_))
    }
}

/// Whether an operation on two operands takes them in their forms.
pub(crate) fn takes_two(op: TwoName, to: &Form<'_>, from: &Form<'_>) -> bool
    ensures { result ≡ spec.takes_two op (model_of_form to.now) (model_of_form from.now) }
{
    to.is_in_memory() && (from.is_in_memory() || (from.is_alone() && has_immediate(op)))
}

/// Whether MOVE takes its operands in their forms.
pub(crate) fn takes_move(length: &Form<'_>, to: &Form<'_>, from: &Form<'_>) -> bool
    ensures { result ≡ spec.takes_move (model_of_form length.now) (model_of_form to.now) (model_of_form from.now) }
{
    (length.is_in_memory() || length.is_alone()) && is_route(to, from)
}

/// Whether MOVE takes a target and a source together.
fn is_route(to: &Form<'_>, from: &Form<'_>) -> bool
    ensures { result ≡ spec.is_route (model_of_form to.now) (model_of_form from.now) }
{
    matches!(
        (to, from),
        (Form::InMemory(_), Form::InMemory(_) | Form::InGrom(..))
            | (Form::Register(_), Form::InGrom(_, None))
    )
}
