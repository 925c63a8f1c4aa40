//! What a line says.

ghost use Rattle.std.specs.Prelude.{◌≡◌, ◌≤◌, length, IfOk, IsTrue};
ghost use Rattle.asm_text.specs.GivenFields.{model_of_fields, FieldsLieInside};
ghost use Rattle.source_defs.specs.Operands.{operand_texts};
ghost use Rattle.expression_defs.specs.Symbols.{look_up};
ghost use Rattle.gpl_source_defs.specs.Locations.{address_of};
ghost use Rattle.gpl_source_defs.specs.Mnemonics.{mnemonic};
ghost use Rattle.gpl_source_defs.specs.Statements as spec;
ghost use Rattle.gpl_lines.specs.Answers.{Gives};
ghost use Rattle.gpl_lines.specs.Defined.{model_of_statement};
ghost use Rattle.gpl_lines.specs.Validity.{IsValid};

use crate::directives::directive;
use crate::failure::Failure;
use crate::mnemonics::mnemonic;
use crate::skeleton::Skeleton;
use crate::values::Scope;
use asm_text::{
    Fields, character_count, one_operand, operand_count, operand_list, optional_operand, part,
    quoted,
};
use gpl_source_defs::{Directive, GplCause};

/// What a line says: an instruction, or a directive with its operands, those that move locations by their numbers. A
/// field stands for the operands in it.
#[derive(Clone, Copy)]
pub enum Statement<'a> {
    /// Nothing.
    Nothing,
    /// An instruction.
    Instruction(Skeleton<'a>),
    /// The first address of a GROM.
    Grom(u16),
    /// An offset in the GROM.
    Aorg(u16),
    /// What the label stands for.
    Equ(u16),
    /// How many bytes are left free.
    Bss(u16),
    /// Words.
    Data(&'a [u8]),
    /// Bytes.
    Byte(&'a [u8]),
    /// A quoted text.
    Text(&'a [u8]),
    /// The end, with the expression of the entry where it has one.
    End(Option<&'a [u8]>),
}

impl Statement<'_> {
    /// How many bytes a line takes.
    pub(crate) fn size(&self) -> u32
        requires { IsValid self.now }
        ensures size { result ≡ spec.declared_size (model_of_statement self.now) }
        ensures most { result ≤ 65535 }
    {
        match self {
            Statement::Instruction(skeleton) => skeleton.size(),
            Statement::Bss(size) => u32::from(*size),
            Statement::Data(field) => 2 * operand_count(field),
            Statement::Byte(field) => operand_count(field),
            Statement::Text(quoted) => character_count(quoted) as u32,
            Statement::Nothing
            | Statement::Grom(_)
            | Statement::Aorg(_)
            | Statement::Equ(_)
            | Statement::End(_) => 0,
        }
    }
}

impl Scope<'_> {
    /// What a line with its fields says.
    pub(crate) fn statement_at<'b>(
        &self,
        line: &'b [u8],
        found: &Fields,
    ) -> Result<Statement<'b>, Failure>
        requires inside { FieldsLieInside line.now found.now }
        requires length { length line.now ≤ 256 }
        ensures parsed { Gives model_of_statement result
            (spec.statement_at (look_up self.now.symbols.now)
            (address_of self.now.at) line.now found.now.operation found.now.operands) }
        ensures valid { IfOk result IsValid }
    {
        match found.operation {
            None => Ok(Statement::Nothing),
            Some(operation) => {
                self.operation_statement(part(line, operation), part(line, found.operands))
            }
        }
    }

    /// What an operation field and an operand field say.
    fn operation_statement<'b>(
        &self,
        operation: &[u8],
        field: &'b [u8],
    ) -> Result<Statement<'b>, Failure>
        requires { length field.now ≤ 256 }
        ensures parsed { Gives model_of_statement result
            (spec.operation_statement (look_up self.now.symbols.now) (address_of self.now.at) operation.now field.now) }
        ensures valid { IfOk result IsValid }
    {
        match directive(operation) {
            Some(found) => self.directive_statement(found, field),
            None => self.instruction_statement(operation, field),
        }
    }

    /// An instruction with its operands.
    #[tactic(auto, using(crate::proofs::FormLaws::named_has_form))]
    fn instruction_statement<'b>(
        &self,
        operation: &[u8],
        field: &'b [u8],
    ) -> Result<Statement<'b>, Failure>
        ensures parsed { Gives model_of_statement result
            (spec.instruction_statement (look_up self.now.symbols.now) (address_of self.now.at)
            (mnemonic operation.now) field.now) }
        ensures valid { IfOk result IsValid }
    {
        match mnemonic(operation) {
            Some(named) => {
                let skeleton = self.skeleton(named, field)?;
                Ok(Statement::Instruction(skeleton))
            }
            None => Err(Failure::Refused(GplCause::UnknownOperation)),
        }
    }

    /// A directive with its operands.
    fn directive_statement<'b>(
        &self,
        found: Directive,
        field: &'b [u8],
    ) -> Result<Statement<'b>, Failure>
        requires { length field.now ≤ 256 }
        ensures parsed { Gives model_of_statement result
            (spec.directive_statement (look_up self.now.symbols.now) (address_of self.now.at) found
            (operand_texts field.now)) }
        ensures valid { IfOk result IsValid }
    {
        match found {
            Directive::Grom => Ok(Statement::Grom(self.number_of_one(field)?)),
            Directive::Aorg => Ok(Statement::Aorg(self.number_of_one(field)?)),
            Directive::Equ => Ok(Statement::Equ(self.number_of_one(field)?)),
            Directive::Bss => Ok(Statement::Bss(self.number_of_one(field)?)),
            Directive::Data => Ok(Statement::Data(operand_list(field)?)),
            Directive::Byte => Ok(Statement::Byte(operand_list(field)?)),
            Directive::Text => Ok(Statement::Text(quoted(one_operand(field)?)?)),
            Directive::End => Ok(Statement::End(optional_operand(field)?)),
        }
    }

    /// The number of the one operand of a field.
    fn number_of_one(&self, field: &[u8]) -> Result<u16, Failure>
        ensures { Gives (λ number. number) result
            (spec.number_of_one (look_up self.now.symbols.now) (address_of self.now.at) (operand_texts field.now)) }
    {
        let text = one_operand(field)?;
        self.number(text)
    }
}
