//! The values of the operands of a line, from the left.

ghost use Rattle.std.specs.Prelude.{◌≡◌, ◌≢◌, length, Err, IfErr};
ghost use Rattle.expression_defs.specs.Expression.{expression};
ghost use Rattle.expression_defs.specs.Symbols.{look_up};
ghost use Rattle.asm_text.specs.GivenValues.{model_of_value, IsNotExternal};
ghost use Rattle.instruction_defs.specs.SecondChecks as spec;
ghost use Rattle.asm_forms.specs.Answers.{Gives};
ghost use Rattle.asm_forms.specs.Answers.{refused as refused_as};
ghost use Rattle.asm_forms.specs.Forms.{model_of_form, form_by, HasRoom, LiesIn};
ghost use Rattle.asm_forms.specs.Skeletons.{AllLieIn};
ghost use Rattle.asm_forms.specs.UpToTwo.{items_of, kinds_in};
ghost use Rattle.asm_forms.specs.Values.{model_of_operand};

use crate::forms::{Form, Mode, first_text, index_text, operand_text};
use crate::up_to_two::UpToTwo;
use asm_text::{ExprError, Symbols, Value, expression_value};
use instruction_defs::{FormError, OperandKind};
use std::alloc::Global;

/// An operand with its values, not yet held against their ranges.
#[derive(Clone, Copy)]
pub(crate) enum Operand {
    /// `R`.
    InRegister(u16),
    /// `*R`.
    ByRegister(u16),
    /// `*R+`.
    AutoIncrement(u16),
    /// `@e`.
    AtAddress(Value),
    /// `@e(R)`.
    AtIndexed(Value, u16),
    /// A register or a count.
    Number(u16),
    /// The displacement of a bit.
    Bit(u16),
    /// The target of a jump.
    To(u16),
    /// A word that follows.
    Following(Value),
}

/// Where a line stands: its operand field, the names that it sees, and its place.
#[derive(Clone, Copy)]
pub(crate) struct Scope<'a> {
    pub(crate) alloc: Global,
    pub(crate) field: &'a [u8],
    pub(crate) symbols: &'a Symbols,
    pub(crate) here: Value,
}

impl Scope<'_> {
    /// The values of operands of these kinds, one value a kind.
    pub(crate) fn all_valued(
        &self,
        kinds: UpToTwo<OperandKind>,
        forms: &UpToTwo<Form>,
    ) -> Result<UpToTwo<Operand>, FormError>
        requires here { IsNotExternal self.now.here }
        requires inside { AllLieIn self.now.field.now forms.now }
        ensures { Gives (items_of model_of_operand) result
            (spec.all_valued (look_up self.now.symbols.now) (model_of_value self.now.here) (kinds_in kinds)
            (items_of (model_of_form self.now.field.now) forms.now)) }
    {
        match (kinds, forms) {
            (UpToTwo::One(kind), UpToTwo::One(form) | UpToTwo::Two(form, _))
            | (UpToTwo::Two(kind, _), UpToTwo::One(form)) => {
                let operand = self.valued(kind, form)?;
                Ok(UpToTwo::One(operand))
            }
            (UpToTwo::Two(kind, other), UpToTwo::Two(form, next)) => {
                let operand = self.valued(kind, form)?;
                let second = self.valued(other, next)?;
                Ok(UpToTwo::Two(operand, second))
            }
            (UpToTwo::None, _) | (_, UpToTwo::None) => Ok(UpToTwo::None),
        }
    }

    /// The value of an operand of a kind.
    fn valued(&self, kind: OperandKind, form: &Form) -> Result<Operand, FormError>
        requires here { IsNotExternal self.now.here }
        requires inside { LiesIn self.now.field.now form.now }
        ensures { Gives model_of_operand result
            (spec.valued (look_up self.now.symbols.now) (model_of_value self.now.here) kind
            (model_of_form self.now.field.now form.now)) }
    {
        let mode = form.mode;
        let text = operand_text(self.field, form);
        match kind {
            OperandKind::General => self.placed(mode, text),
            OperandKind::Register | OperandKind::Count => {
                let number = self.number_of(first_text(mode, text))?;
                Ok(Operand::Number(number))
            }
            OperandKind::Displacement => {
                let number = self.number_of(first_text(mode, text))?;
                Ok(Operand::Bit(number))
            }
            OperandKind::Immediate => {
                let value = self.value_of(first_text(mode, text))?;
                Ok(Operand::Following(value))
            }
            OperandKind::Target => {
                let value = self.value_of(first_text(mode, text))?;
                let target = target_in(self.here, value)?;
                Ok(Operand::To(target))
            }
        }
    }

    /// The values of an operand in any mode.
    fn placed(&self, mode: Mode, text: &[u8]) -> Result<Operand, FormError>
        requires here { IsNotExternal self.now.here }
        requires room { HasRoom mode (length text.now) }
        ensures { Gives model_of_operand result
            (spec.placed (look_up self.now.symbols.now) (model_of_value self.now.here) (form_by mode text.now)) }
    {
        let first = first_text(mode, text);
        match mode {
            Mode::Plain => {
                let register = self.number_of(first)?;
                Ok(Operand::InRegister(register))
            }
            Mode::Indirect => {
                let register = self.number_of(first)?;
                Ok(Operand::ByRegister(register))
            }
            Mode::Increment => {
                let register = self.number_of(first)?;
                Ok(Operand::AutoIncrement(register))
            }
            Mode::Symbolic => {
                let address = self.value_of(first)?;
                Ok(Operand::AtAddress(address))
            }
            Mode::Indexed(place) => {
                let address = self.value_of(first)?;
                let register = self.number_of(index_text(place, text))?;
                Ok(Operand::AtIndexed(address, register))
            }
        }
    }

    /// The value of an expression that has to be absolute.
    fn number_of(&self, text: &[u8]) -> Result<u16, FormError>
        requires { IsNotExternal self.now.here }
        ensures { Gives (λ number. number) result
            (spec.number_of (look_up self.now.symbols.now) (model_of_value self.now.here) text.now) }
    {
        match self.value_of(text)? {
            Value::Absolute(number) => Ok(number),
            Value::Relocatable(_) | Value::External(_) => Err(FormError::Expr(
                ExprError::BadRelocation,
            )),
        }
    }

    /// The value of an expression.
    #[tactic(auto, using(crate::proofs::Refusals::expr_refuses))]
    fn value_of(&self, text: &[u8]) -> Result<Value, FormError>
        requires { IsNotExternal self.now.here }
        ensures { Gives model_of_value result
            (spec.value_of (look_up self.now.symbols.now) (model_of_value self.now.here) text.now) }
    {
        match expression_value(self.alloc, text, self.symbols, self.here) {
            Ok(value) => Ok(value),
            Err(cause) => Err(refused(cause)),
        }
    }
}

/// The target of a jump, which is of the kind of the jump's place.
fn target_in(here: Value, target: Value) -> Result<u16, FormError>
    ensures { result ≡ spec.as_form_error (spec.target_in (model_of_value here) (model_of_value target)) }
{
    match (here, target) {
        (Value::Absolute(_), Value::Absolute(target))
        | (Value::Relocatable(_), Value::Relocatable(target)) => Ok(target),
        _ => Err(FormError::Expr(ExprError::BadRelocation)),
    }
}

/// What the refusal of an expression is in a line.
fn refused(cause: ExprError) -> FormError
    ensures { result ≡ refused_as cause }
{
    match cause {
        ExprError::Memory => FormError::Memory,
        cause => FormError::Expr(cause),
    }
}
