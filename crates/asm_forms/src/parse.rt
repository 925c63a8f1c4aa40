//! Instruction lines: their size by the first checks, and their words by the second.

ghost use Rattle.std.specs.Prelude.{◌≡◌, ◌≤◌, length, Ok, IfOk, IsSome, IsOk};
ghost use Rattle.source_defs.specs.Fields as lines;
ghost use Rattle.expression_defs.specs.Symbols.{look_up};
ghost use Rattle.asm_text.specs.GivenFields.{model_of_fields};
ghost use Rattle.asm_text.specs.GivenValues.{model_of_value, IsNotExternal};
ghost use Rattle.instruction_defs.specs.FirstChecks as first;
ghost use Rattle.instruction_defs.specs.SecondChecks as second;
ghost use Rattle.asm_forms.specs.Answers.{Gives};
ghost use Rattle.asm_forms.specs.Lines.{operation_in, operands_in, line_words};
ghost use Rattle.asm_forms.specs.Placed.{placed_words};
ghost use Rattle.asm_forms.specs.Skeletons.{model_of_skeleton, skeleton_answer, IsOfField};

use crate::first_checks::{Skeleton, size_in, skeleton_of};
use crate::operand_kinds::kinds_of;
use crate::placed::{Placed, in_range_words, one_word};
use crate::values::Scope;
use asm_text::{Fields, Symbols, Value, part};
use instruction_defs::FormError;
use std::alloc::Global;

/// The second checks of a line of which the first checks left this, and its words.
#[tactic(auto, unfolding(instruction_defs::specs::SecondChecks::second_checks))]
fn second_checks(scope: &Scope<'_>, skeleton: &Skeleton) -> Result<Placed, FormError>
    requires here { IsNotExternal scope.now.here }
    requires inside { IsOfField scope.now.field.now skeleton.now }
    ensures { Gives placed_words result
        (second.second_checks (look_up scope.now.symbols.now) (model_of_value scope.now.here)
        (model_of_skeleton scope.now.field.now skeleton.now)) }
{
    match skeleton {
        Skeleton::Word(word) => Ok(one_word(*word)),
        Skeleton::Instruction(operation, forms) => {
            let operands = scope.all_valued(kinds_of(*operation), forms)?;
            in_range_words(&scope.here, *operation, operands)
        }
    }
}

/// How many bytes the words of an instruction line take: 2, 4 or 6. The fields are those of the line. It never wants
/// memory.
/// The allocator is there so that both checks are called alike.
///
/// # Errors
/// The first checks: `UnknownOperation`, then `OperandCount`, then `BadOperand` for the first operand that is empty or
/// has a form that its place does not allow (Editor/Assembler manual, "Assembly Language Instructions").
pub fn size_of(_alloc: Global, line: &[u8], fields: &Fields) -> Result<u16, FormError>
    requires read { lines.fields line.now ≡ Ok (model_of_fields fields.now) }
    requires operation { IsSome fields.now.operation }
    ensures { result ≡ first.line_size (operation_in line.now fields.now) (operands_in line.now fields.now) }
{
    let skeleton = line_checks(line, fields)?;
    Ok(size_in(&skeleton))
}

/// The words of an instruction line at the place `here`, of which `size_of` refuses nothing; the fields are those of
/// the line.
///
/// # Errors
/// The second checks: first the values from the left, each `Expr` with the expression's refusal, then the ranges:
/// `BadOperand`, and `JumpTooFar` for a jump. `Memory` means that memory ran out, and `Expr` never carries it.
pub fn parse_instr(
    alloc: Global,
    line: &[u8],
    fields: &Fields,
    symbols: &Symbols,
    here: Value,
) -> Result<Placed, FormError>
    requires read { lines.fields line.now ≡ Ok (model_of_fields fields.now) }
    requires operation { IsSome fields.now.operation }
    requires sized { IsOk (first.line_size (operation_in line.now fields.now) (operands_in line.now fields.now)) }
    requires here { IsNotExternal here }
    ensures { Gives placed_words result
        (line_words (look_up symbols.now) (model_of_value here) (operation_in line.now fields.now)
        (operands_in line.now fields.now)) }
{
    let skeleton = line_checks(line, fields)?;
    words_of(alloc, operand_field(line, fields), &skeleton, symbols, here)
}

/// The words of an instruction line at the place `here`, of whose operand field the first checks left this.
///
/// # Errors
/// The second checks, as of `parse_instr`.
pub fn words_of(
    alloc: Global,
    field: &[u8],
    skeleton: &Skeleton,
    symbols: &Symbols,
    here: Value,
) -> Result<Placed, FormError>
    requires here { IsNotExternal here }
    requires inside { IsOfField field.now skeleton.now }
    ensures { Gives placed_words result
        (second.second_checks (look_up symbols.now) (model_of_value here) (model_of_skeleton field.now skeleton.now)) }
{
    let scope = Scope {
        alloc,
        field,
        symbols,
        here,
    };
    second_checks(&scope, skeleton)
}

/// The first checks of a line with an operation.
fn line_checks(line: &[u8], fields: &Fields) -> Result<Skeleton, FormError>
    requires read { lines.fields line.now ≡ Ok (model_of_fields fields.now) }
    requires operation { IsSome fields.now.operation }
    ensures skeleton { skeleton_answer (operands_in line.now fields.now) result
        ≡ first.first_checks (operation_in line.now fields.now) (operands_in line.now fields.now) }
    ensures inside { IfOk result (IsOfField (operands_in line.now fields.now)) }
{
    let operation = fields.operation.unwrap();
    skeleton_of(part(line, operation), operand_field(line, fields))
}

/// The operand field of a line.
fn operand_field<'a>(line: &'a [u8], fields: &Fields) -> &'a [u8]
    requires { lines.fields line.now ≡ Ok (model_of_fields fields.now) }
    ensures field { result.now ≡ operands_in line.now fields.now }
    ensures short { length result.now ≤ 256 }
{
    part(line, fields.operands)
}
