//! The first checks of an instruction line: its operation, the number of its operands, and their forms.

ghost use Rattle.std.specs.Prelude.{◌≡◌, ◌≤◌, ℕ, List, length, Ok, Err, IfOk, IfErr};
ghost use Rattle.source_defs.specs.Lines.{IsInside, part};
ghost use Rattle.source_defs.specs.Operands.{operand_texts};
ghost use Rattle.instruction_defs.specs.FirstChecks as spec;
ghost use Rattle.asm_forms.specs.Forms.{form_by, form_answer, mode_answer, HasRoom, LiesIn};
ghost use Rattle.asm_forms.specs.Forms.{just_one, just_two, both_forms};
ghost use Rattle.asm_forms.specs.Forms.{model_of_form};
ghost use Rattle.asm_forms.specs.UpToTwo.{items_of, kinds_in};
ghost use Rattle.asm_forms.specs.Skeletons.{model_of_skeleton, forms_answer, skeleton_answer, AllLieIn, IsOfField};

use crate::forms::{Form, Mode, mode_of};
use crate::mnemonics::mnemonic;
use crate::operand_kinds::kinds_of;
use crate::up_to_two::UpToTwo;
use asm_text::{operands, part};
use instruction_defs::{FormError, Mnemonic, OperandKind};
use source_defs::Span;
use tms_defs::Operation;

/// What the first checks leave of an instruction line. Its operands are still texts of the operand field.
#[derive(Clone, Copy)]
pub enum Skeleton {
    /// A word that has a name of its own.
    Word(u16),
    /// An operation with the forms of its operands.
    Instruction(Operation, UpToTwo<Form>),
}

/// The first checks of an operation field and an operand field. They want no memory.
///
/// # Errors
/// `UnknownOperation`, then `OperandCount`, then `BadOperand` for the first operand that is empty or has a form that
/// its place does not allow (Editor/Assembler manual, "Assembly Language Instructions").
#[tactic(auto, unfolding(instruction_defs::specs::FirstChecks::first_checks))]
pub fn skeleton_of(operation: &[u8], field: &[u8]) -> Result<Skeleton, FormError>
    requires { length field.now ≤ 65535 }
    ensures skeleton { skeleton_answer field.now result ≡ spec.first_checks operation.now field.now }
    ensures inside { IfOk result (IsOfField field.now) }
{
    match mnemonic(operation) {
        Some(Mnemonic::Fixed(word)) => Ok(Skeleton::Word(word)),
        Some(Mnemonic::Of(operation)) => match forms_of(kinds_of(operation), field) {
            Ok(forms) => Ok(Skeleton::Instruction(operation, forms)),
            Err(cause) => Err(cause),
        },
        None => Err(FormError::UnknownOperation),
    }
}

/// The forms of the operands of these kinds, one form a kind. A field is not read if there are none.
#[tactic(auto, using(crate::proofs::Counted::one_is_counted, crate::proofs::Counted::two_are_counted))]
fn forms_of(kinds: UpToTwo<OperandKind>, field: &[u8]) -> Result<UpToTwo<Form>, FormError>
    requires { length field.now ≤ 65535 }
    ensures forms { forms_answer field.now result ≡ spec.forms_of (kinds_in kinds) field.now }
    ensures inside { IfOk result (AllLieIn field.now) }
{
    match kinds {
        UpToTwo::One(kind) => {
            let span = one_operand(field)?;
            let form = form_in(kind, field, span)?;
            Ok(UpToTwo::One(form))
        }
        UpToTwo::Two(kind, other) => {
            let (first, second) = two_operands(field)?;
            both_forms(kind, other, field, first, second)
        }
        UpToTwo::None => Ok(UpToTwo::None),
    }
}

/// The one operand of a field that has one.
fn one_operand(field: &[u8]) -> Result<Span, FormError>
    ensures ok { IfOk result (λ span. Ok (part field.now span) ≡ just_one (operand_texts field.now)) }
    ensures inside { IfOk result (IsInside field.now) }
    ensures err { IfErr result (λ cause. Err cause ≡ just_one (operand_texts field.now)) }
{
    let mut parts = operands(field);
    let (Some(only), None) = (parts.next(), parts.next()) else {
        return Err(FormError::OperandCount);
    };
    Ok(only)
}

/// The two operands of a field that has two.
fn two_operands(field: &[u8]) -> Result<(Span, Span), FormError>
    ensures ok { IfOk result (λ spans. Ok (part field.now spans.0, part field.now spans.1)
        ≡ just_two (operand_texts field.now)) }
    ensures first { IfOk result (λ spans. IsInside field.now spans.0) }
    ensures second { IfOk result (λ spans. IsInside field.now spans.1) }
    ensures err { IfErr result (λ cause. Err cause ≡ just_two (operand_texts field.now)) }
{
    let mut parts = operands(field);
    let (Some(first), Some(second), None) = (parts.next(), parts.next(), parts.next()) else {
        return Err(FormError::OperandCount);
    };
    Ok((first, second))
}

/// The forms of two operands of these kinds.
fn both_forms(
    kind: OperandKind,
    other: OperandKind,
    field: &[u8],
    first: Span,
    second: Span,
) -> Result<UpToTwo<Form>, FormError>
    requires short { length field.now ≤ 65535 }
    requires first { IsInside field.now first }
    requires second { IsInside field.now second }
    ensures forms { forms_answer field.now result
        ≡ both_forms kind other (part field.now first) (part field.now second) }
    ensures inside { IfOk result (AllLieIn field.now) }
{
    let form = form_in(kind, field, first)?;
    let next = form_in(other, field, second)?;
    Ok(UpToTwo::Two(form, next))
}

/// The form of an operand of a kind.
#[inline(always)]
fn form_in(kind: OperandKind, field: &[u8], span: Span) -> Result<Form, FormError>
    requires short { length field.now ≤ 65535 }
    requires inside { IsInside field.now span }
    ensures form { form_answer field.now result ≡ spec.form_in kind (part field.now span) }
    ensures inside { IfOk result (LiesIn field.now) }
{
    let mode = mode_in(kind, part(field, span))?;
    Ok(Form {
        start: span.start as u16,
        end: span.end as u16,
        mode,
    })
}

/// How an operand of a kind is written.
#[inline(always)]
fn mode_in(kind: OperandKind, text: &[u8]) -> Result<Mode, FormError>
    requires { length text.now ≤ 65535 }
    ensures form { mode_answer text.now result ≡ spec.form_in kind text.now }
    ensures room { IfOk result (λ mode. HasRoom mode (length text.now)) }
{
    if text.is_empty() {
        return Err(FormError::BadOperand);
    }
    match kind {
        OperandKind::General => Ok(mode_of(text)),
        _ if is_mode_sign(text[0]) => Err(FormError::BadOperand),
        _ => Ok(Mode::Plain),
    }
}

/// Whether a byte begins an operand that is no expression alone.
fn is_mode_sign(byte: u8) -> bool
    ensures { result ≡ spec.is_mode_sign byte }
{
    byte == b'*' || byte == b'@'
}

/// How many bytes the words of a line take: 2, 4 or 6.
pub fn size_in(skeleton: &Skeleton) -> u16
    ensures { (field : List ℕ) → result ≡ spec.size_of (model_of_skeleton field skeleton.now) }
{
    match skeleton {
        Skeleton::Word(_) => 2,
        Skeleton::Instruction(operation, forms) => {
            2 * (1 + all_words_after(kinds_of(*operation), forms))
        }
    }
}

/// How many words follow for the operands of a line.
fn all_words_after(kinds: UpToTwo<OperandKind>, forms: &UpToTwo<Form>) -> u16
    ensures words { (field : List ℕ) →
        result ≡ spec.all_words_after (kinds_in kinds) (items_of (model_of_form field) forms.now) }
    ensures most { result ≤ 2 }
{
    match (kinds, forms) {
        (UpToTwo::One(kind), UpToTwo::One(form) | UpToTwo::Two(form, _))
        | (UpToTwo::Two(kind, _), UpToTwo::One(form)) => words_after(kind, form.mode),
        (UpToTwo::Two(kind, other), UpToTwo::Two(form, next)) => {
            words_after(kind, form.mode) + words_after(other, next.mode)
        }
        (UpToTwo::None, _) | (_, UpToTwo::None) => 0,
    }
}

/// How many words follow for an operand.
fn words_after(kind: OperandKind, mode: Mode) -> u16
    ensures words { (text : List ℕ) → result ≡ spec.words_after kind (form_by mode text) }
    ensures most { result ≤ 1 }
{
    match (kind, mode) {
        (OperandKind::Immediate, _) | (OperandKind::General, Mode::Symbolic | Mode::Indexed(_)) =>
            1,
        _ => 0,
    }
}
