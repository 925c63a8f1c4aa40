//! The first checks of an instruction: the number of its operands, their forms, and the addresses of those in memory.

ghost use Rattle.std.specs.Prelude.{◌≡◌, IsTrue, IfOk, IfErr};
ghost use Rattle.source_defs.specs.Operands.{operand_texts};
ghost use Rattle.source_defs.specs.Refusals.{map_ok};
ghost use Rattle.expression_defs.specs.Symbols.{look_up};
ghost use Rattle.gpl_source_defs.specs.Locations.{address_of};
ghost use Rattle.gpl_source_defs.specs.Skeletons as spec;
ghost use Rattle.gpl_lines.specs.Answers.{Gives, NoMemory};
ghost use Rattle.gpl_lines.specs.Defined.{
  model_of_form,
  model_of_route,
  model_of_skeleton,
  model_of_source,
  model_of_two,
  model_of_move,
};
ghost use Rattle.gpl_lines.specs.Validity.{HasForm, IsValidSkeleton};

use crate::failure::Failure;
use crate::forms::{Form, form_of, takes_move, takes_two};
use crate::skeleton::{Route, Skeleton, Source};
use crate::values::Scope;
use asm_text::{one_operand, operands};
use gpl_defs::{GplOperand, TwoName};
use gpl_source_defs::{GplCause, Mnemonic};

impl Scope<'_> {
    /// The operands of an instruction.
    pub(crate) fn skeleton<'b>(
        &self,
        named: Mnemonic,
        field: &'b [u8],
    ) -> Result<Skeleton<'b>, Failure>
        requires { HasForm named }
        ensures found { Gives model_of_skeleton result
            (spec.skeleton (look_up self.now.symbols.now) (address_of self.now.at) named field.now) }
        ensures valid { IfOk result IsValidSkeleton }
    {
        match named {
            Mnemonic::Plain(op) => Ok(Skeleton::Plain(op)),
            Mnemonic::Byte(op) => {
                let text = text_of_one(field)?;
                Ok(Skeleton::Byte(op, text))
            }
            Mnemonic::Jump(op) => {
                let text = text_of_one(field)?;
                Ok(Skeleton::Jump(op, text))
            }
            Mnemonic::Branch(on) => {
                let text = text_of_one(field)?;
                Ok(Skeleton::Branch(on, text))
            }
            Mnemonic::One(op, word) => {
                let form = one_form(field)?;
                let operand = self.operand_in(&form)?;
                Ok(Skeleton::One(op, word, operand))
            }
            Mnemonic::Two(op, word) => self.two(op, word, field),
            Mnemonic::Move => self.move_of(field),
        }
    }

    /// A destination and a source.
    fn two<'b>(&self, op: TwoName, word: bool, field: &'b [u8]) -> Result<Skeleton<'b>, Failure>
        ensures found { Gives model_of_skeleton result
            (spec.two_skeleton (look_up self.now.symbols.now) (address_of self.now.at) op word field.now) }
        ensures valid { IfOk result IsValidSkeleton }
    {
        let (to, from) = two_forms(field)?;
        if !takes_two(op, &to, &from) {
            return Err(Failure::Refused(GplCause::BadOperand));
        }
        let destination = self.operand_in(&to)?;
        let source = self.source_in(&from)?;
        Ok(Skeleton::Two(op, word, destination, source))
    }

    /// The length, the target and the source of MOVE.
    fn move_of<'b>(&self, field: &'b [u8]) -> Result<Skeleton<'b>, Failure>
        ensures found { Gives model_of_skeleton result
            (spec.move_skeleton (look_up self.now.symbols.now) (address_of self.now.at) field.now) }
        ensures valid { IfOk result IsValidSkeleton }
    {
        let (length, to, from) = move_forms(field)?;
        if !takes_move(&length, &to, &from) {
            return Err(Failure::Refused(GplCause::BadOperand));
        }
        let length = self.source_in(&length)?;
        let route = self.route_in(&to, &from)?;
        Ok(Skeleton::Move(length, route))
    }

    /// An operand in memory; no other form is taken.
    fn operand_in(&self, form: &Form<'_>) -> Result<GplOperand, Failure>
        ensures { Gives (λ operand. operand) result
            (spec.operand_in (look_up self.now.symbols.now) (address_of self.now.at) (model_of_form form.now)) }
    {
        match form {
            Form::InMemory(memory) => self.operand(memory),
            Form::InGrom(..) | Form::Register(_) | Form::Alone(_) => {
                Err(Failure::Refused(GplCause::BadOperand))
            }
        }
    }

    /// An operand in memory, or an immediate one.
    fn source_in<'b>(&self, form: &Form<'b>) -> Result<Source<'b>, Failure>
        ensures { Gives model_of_source result
            (spec.source_in (look_up self.now.symbols.now) (address_of self.now.at) (model_of_form form.now)) }
    {
        match form {
            Form::Alone(text) => Ok(Source::Immediate(text)),
            _ => {
                let operand = self.operand_in(form)?;
                Ok(Source::At(operand))
            }
        }
    }

    /// The target and the source of MOVE.
    fn route_in<'b>(&self, to: &Form<'b>, from: &Form<'b>) -> Result<Route<'b>, Failure>
        ensures { Gives model_of_route result
            (spec.route_in (look_up self.now.symbols.now) (address_of self.now.at) (model_of_form to.now)
            (model_of_form from.now)) }
    {
        match (to, from) {
            (Form::InMemory(to), Form::InMemory(from)) => {
                let target = self.operand(to)?;
                let source = self.operand(from)?;
                Ok(Route::Within(target, source))
            }
            (Form::InMemory(to), Form::InGrom(address, index)) => {
                let target = self.operand(to)?;
                Ok(Route::ToMemory(target, address, *index))
            }
            (Form::Register(number), Form::InGrom(address, None)) => {
                Ok(Route::ToRegisters(number, address))
            }
            _ => Err(Failure::Refused(GplCause::BadOperand)),
        }
    }
}

/// The form of the one operand of a field.
fn one_form(field: &[u8]) -> Result<Form<'_>, Failure>
    ensures { Gives model_of_form result (spec.one_form (operand_texts field.now)) }
{
    let text = one_operand(field)?;
    Ok(form_of(text))
}

/// The text of the one operand of a field, which is an expression alone.
fn text_of_one(field: &[u8]) -> Result<&[u8], Failure>
    ensures { Gives (λ text. text.now) result (spec.text_of_one (operand_texts field.now)) }
{
    match one_form(field)? {
        Form::Alone(text) => Ok(text),
        Form::InMemory(_) | Form::InGrom(..) | Form::Register(_) => {
            Err(Failure::Refused(GplCause::BadOperand))
        }
    }
}

/// The forms of the two operands of a field.
fn two_forms(field: &[u8]) -> Result<(Form<'_>, Form<'_>), GplCause>
    ensures forms { map_ok model_of_two result ≡ spec.two_forms (operand_texts field.now) }
    ensures cause { IfErr result NoMemory }
{
    let mut parts = operands(field);
    let (Some(first), Some(second), None) = (parts.next(), parts.next(), parts.next()) else {
        return Err(GplCause::OperandCount);
    };
    let to = written_form(&field[first.start..first.end])?;
    let from = written_form(&field[second.start..second.end])?;
    Ok((to, from))
}

/// The forms of the three operands of MOVE.
fn move_forms(field: &[u8]) -> Result<(Form<'_>, Form<'_>, Form<'_>), GplCause>
    ensures forms { map_ok model_of_move result ≡ spec.move_forms (operand_texts field.now) }
    ensures cause { IfErr result NoMemory }
{
    let mut parts = operands(field);
    let (Some(first), Some(second), Some(third), None) = (
        parts.next(),
        parts.next(),
        parts.next(),
        parts.next(),
    ) else {
        return Err(GplCause::OperandCount);
    };
    let length = written_form(&field[first.start..first.end])?;
    let to = written_form(&field[second.start..second.end])?;
    let from = written_form(&field[third.start..third.end])?;
    Ok((length, to, from))
}

/// The form of an operand that is not empty.
fn written_form(text: &[u8]) -> Result<Form<'_>, GplCause>
    ensures form { map_ok model_of_form result ≡ spec.written_form text.now }
    ensures cause { IfErr result NoMemory }
{
    if text.is_empty() {
        return Err(GplCause::BadOperand);
    }
    Ok(form_of(text))
}
