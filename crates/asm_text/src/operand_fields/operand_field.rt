//! An operand field as operands.

ghost use Rattle.std.specs.Prelude.{◌≡◌};
ghost use Rattle.source_defs.specs.Operands as spec;

use crate::operand_fields::operand_iter::Operands;

/// The operands of an operand field: the parts between commas outside quotes, in order. An empty field has none.
#[tactic(auto, using(source_defs::proofs::Quotes::quoting, source_defs::proofs::OperandSteps::operands_lie_inside))]
pub fn operands(field: &[u8]) -> Operands<'_>
    ensures all { result ≡ spec.operands field.now }
    ensures inside { spec.OperandsLieInside field.now result }
{
    Operands {
        field,
        at: 0,
        ended: field.is_empty(),
    }
}
