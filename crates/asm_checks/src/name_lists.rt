//! The names of DEF and REF.

ghost use Rattle.std.specs.Prelude.{◌≡◌, true, IfOk, IsTrue};
ghost use Rattle.source_defs.specs.Refusals.{map_ok};
ghost use Rattle.source_defs.specs.Operands.{operand_texts};
ghost use Rattle.asm_defs.specs.Statements as spec;

use asm_text::{OperandError, is_name, operands};

/// A field of one name or more.
pub(crate) fn names_of(field: &[u8]) -> Result<&[u8], OperandError>
    ensures names { map_ok (λ found. spec.upper_names (operand_texts found.now)) result
        ≡ spec.names_in (operand_texts field.now) }
    ensures all { IfOk result (λ found. IsTrue (spec.all_names (operand_texts found.now))) }
{
    if operands(field).next().is_none() {
        return Err(OperandError::Count);
    }
    if all_names(field) {
        Ok(field)
    } else {
        Err(OperandError::Form)
    }
}

fn all_names(field: &[u8]) -> bool
    ensures { result ≡ spec.all_names (operand_texts field.now) }
{
    for span in operands(field) {
        if !is_name(&field[span.start..span.end]) {
            return false;
        }
    }
    true
}
