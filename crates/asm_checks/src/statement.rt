//! What a line says.

ghost use Rattle.std.specs.Prelude.{◌≤◌, length, IfOk, ◌≡◌, Ok, Some};
ghost use Rattle.source_defs.specs.Fields as lines;
ghost use Rattle.asm_text.specs.GivenFields.{model_of_fields, FieldsLieInside};
ghost use Rattle.source_defs.specs.Operands.{operand_texts};
ghost use Rattle.asm_defs.specs.Statements as spec;
ghost use Rattle.source_defs.specs.Refusals.{map_ok};
ghost use Rattle.asm_checks.specs.Answers.{Gives};
ghost use Rattle.asm_checks.specs.Defined.{model_of_statement, KeepsSkeleton, NamesOnly};
ghost use Rattle.asm_checks.specs.Moves.{MovesLittle};

use crate::directives::directive;
use crate::failure::Failure;
use crate::name_lists::names_of;
use asm_defs::Directive;
use asm_forms::{Skeleton, size_in, skeleton_of};
use asm_text::{Fields, OperandError, one_operand, operand_list, optional_operand, part, quoted};
use instruction_defs::FormError;

/// An instruction with its operands, and what the first checks leave of it.
#[derive(Clone, Copy)]
pub struct InstructionLine<'a> {
    /// How many bytes its words take.
    pub size: u16,
    /// What the first checks leave of it.
    pub skeleton: Skeleton,
    /// The operation field.
    pub operation: &'a [u8],
    /// The operand field.
    pub field: &'a [u8],
}

/// What a line says: an instruction, or a directive with its operands. A field stands for the operands in it.
#[derive(Clone, Copy)]
pub enum Statement<'a> {
    /// Nothing, or nothing that has an effect.
    Nothing,
    /// An instruction.
    Instruction(InstructionLine<'a>),
    /// The expression of an absolute origin.
    Aorg(&'a [u8]),
    /// The expression of a relocatable origin, where it has one.
    Rorg(Option<&'a [u8]>),
    /// The expression of a dummy origin.
    Dorg(&'a [u8]),
    /// The size of a block that starts at its label.
    Bss(&'a [u8]),
    /// The size of a block that ends at its label.
    Bes(&'a [u8]),
    /// A word boundary.
    Even,
    /// What the label stands for.
    Equ(&'a [u8]),
    /// Words.
    Data(&'a [u8]),
    /// Bytes.
    Byte(&'a [u8]),
    /// A quoted text.
    Text(&'a [u8]),
    /// The names that are defined for other modules.
    Def(&'a [u8]),
    /// The names that other modules define.
    Ref(&'a [u8]),
    /// The module's name.
    Idt(&'a [u8]),
    /// A title.
    Titl(&'a [u8]),
    /// The end, with the expression of the entry where it has one.
    End(Option<&'a [u8]>),
}

/// What a line with its fields says, and what the first checks leave of it where it is an instruction.
#[tactic(auto, using(crate::proofs::Failures::form_fails), unfolding(asm_defs::specs::Statements::statement_in))]
pub fn statement_in<'a>(line: &'a [u8], fields: &Fields) -> Result<Statement<'a>, Failure>
    requires read { lines.fields line.now ≡ Ok (model_of_fields fields.now) }
    requires inside { FieldsLieInside line.now fields.now }
    requires length { length line.now ≤ 256 }
    ensures parsed { Gives model_of_statement result (spec.statement_in line.now (model_of_fields fields.now)) }
    ensures little { IfOk result MovesLittle }
    ensures names { IfOk result NamesOnly }
    ensures skeleton { IfOk result KeepsSkeleton }
{
    match fields.operation {
        None => Ok(Statement::Nothing),
        Some(operation) => {
            let field = part(line, fields.operands);
            match directive(part(line, operation)) {
                Some(found) => Ok(directive_statement(found, field)?),
                None => Ok(instruction_statement(part(line, operation), field)?),
            }
        }
    }
}

/// An instruction with its operands, and what the first checks leave of it.
fn instruction_statement<'a>(
    operation: &'a [u8],
    field: &'a [u8],
) -> Result<Statement<'a>, FormError>
    requires { length field.now ≤ 256 }
    ensures parsed { map_ok model_of_statement result ≡ spec.instruction_statement operation.now field.now }
    ensures skeleton { IfOk result KeepsSkeleton }
    ensures little { IfOk result MovesLittle }
    ensures names { IfOk result NamesOnly }
{
    let skeleton = skeleton_of(operation, field)?;
    let size = size_in(&skeleton);
    Ok(Statement::Instruction(InstructionLine {
        size,
        skeleton,
        operation,
        field,
    }))
}

/// A directive with its operands.
fn directive_statement(found: Directive, field: &[u8]) -> Result<Statement<'_>, OperandError>
    requires { length field.now ≤ 256 }
    ensures parsed { map_ok model_of_statement result ≡ spec.directive_statement found (operand_texts field.now) }
    ensures little { IfOk result MovesLittle }
    ensures names { IfOk result NamesOnly }
    ensures skeleton { IfOk result KeepsSkeleton }
{
    match found {
        Directive::Aorg => Ok(Statement::Aorg(one_operand(field)?)),
        Directive::Rorg => Ok(Statement::Rorg(optional_operand(field)?)),
        Directive::Dorg => Ok(Statement::Dorg(one_operand(field)?)),
        Directive::Bss => Ok(Statement::Bss(one_operand(field)?)),
        Directive::Bes => Ok(Statement::Bes(one_operand(field)?)),
        Directive::Even => Ok(Statement::Even),
        Directive::Equ => Ok(Statement::Equ(one_operand(field)?)),
        Directive::Data => Ok(Statement::Data(operand_list(field)?)),
        Directive::Byte => Ok(Statement::Byte(operand_list(field)?)),
        Directive::Text => Ok(Statement::Text(quoted(one_operand(field)?)?)),
        Directive::Def => Ok(Statement::Def(names_of(field)?)),
        Directive::Ref => Ok(Statement::Ref(names_of(field)?)),
        Directive::Idt => Ok(Statement::Idt(one_operand(field)?)),
        Directive::Titl => Ok(Statement::Titl(one_operand(field)?)),
        Directive::Quiet => Ok(Statement::Nothing),
        Directive::End => Ok(Statement::End(optional_operand(field)?)),
    }
}
