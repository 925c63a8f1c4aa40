//! The names that a line defines.

ghost use Rattle.std.specs.Prelude.{◌≡◌, Some, None, OnOk, OnErr, IfErr, IsFalse};
ghost use Rattle.std.specs.FinMap.{find, get, insert};
ghost use Rattle.std.specs.Ordering.{nat_cmp};
ghost use Rattle.std.specs.Cmp.Lexicographic.{slice_cmp};
ghost use Rattle.expression_defs.specs.Symbols.{registers};
ghost use Rattle.expression_defs.specs.Growing.{Grows};
ghost use Rattle.expression_defs.specs.Layout.{with_names};
ghost use Rattle.asm_text.specs.GivenValues.{model_of_value};
ghost use Rattle.asm_defs.specs.FirstChecks.{any_known, label_in, label_entry, external_entries};
ghost use Rattle.asm_core.specs.Keeping.{KnowsLabel};

use asm_checks::Failure;
use asm_defs::AsmCause;
use asm_text::{DefineError, Name, Symbols, Value};
use std::alloc::AllocError;

/// Defines a label and names of REF, where the label stands for nothing yet, as none of the names does. After a failure
/// none is defined.
#[tactic(auto, using(crate::proofs::NameLaws::taken_back, crate::proofs::NameLaws::grown_on))]
pub(crate) fn define_line(
    symbols: &mut Symbols,
    label: Option<Name>,
    value: Value,
    refs: &[Name],
) -> Result<(), Failure>
    ensures fresh { OnOk result (IsFalse (any_known symbols.old (label_in label))) }
    ensures known { IfErr result (KnowsLabel symbols.old label) }
    ensures defined { OnOk result (symbols.new
        ≡ with_names (with_names symbols.old (label_entry label (model_of_value value))) (external_entries refs.now)) }
    ensures grows { OnOk result (Grows symbols.old symbols.new) }
    ensures unchanged { OnErr result (symbols.new ≡ symbols.old) }
{
    let Some(name) = label else {
        return Ok(define_refs(symbols, refs)?);
    };
    define(symbols, name, value)?;
    match define_refs(symbols, refs) {
        Ok(()) => Ok(()),
        Err(error) => {
            symbols.remove(&name);
            Err(Failure::from(error))
        }
    }
}

/// Defines names of REF, of which none stands for anything yet. If memory runs out, none is defined.
#[tactic(auto, using(crate::proofs::NameLaws::taken_back, crate::proofs::NameLaws::grown_on))]
fn define_refs(symbols: &mut Symbols, refs: &[Name]) -> Result<(), AllocError>
    ensures defined { OnOk result (symbols.new ≡ with_names symbols.old (external_entries refs.now)) }
    ensures grows { OnOk result (Grows symbols.old symbols.new) }
    ensures unchanged { OnErr result (symbols.new ≡ symbols.old) }
{
    let [name, others @ ..] = refs else {
        return Ok(());
    };
    if define(symbols, *name, Value::External(*name)).is_err() {
        return Err(AllocError);
    }
    match define_refs(symbols, others) {
        Ok(()) => Ok(()),
        Err(error) => {
            symbols.remove(name);
            Err(error)
        }
    }
}

/// Defines a name, where it stands for nothing yet.
#[tactic(auto, using(crate::proofs::NameLaws::grown))]
fn define(symbols: &mut Symbols, name: Name, value: Value) -> Result<(), Failure>
    ensures defined { OnOk result (symbols.new ≡ insert symbols.old name (model_of_value value)) }
    ensures fresh { OnOk result (get symbols.old name ≡ None) }
    ensures known { IfErr result (KnowsLabel symbols.old (Some name)) }
    ensures grows { OnOk result (Grows symbols.old symbols.new) }
    ensures no_register { OnOk result (find (slice_cmp nat_cmp) name registers ≡ None) }
    ensures unchanged { OnErr result (symbols.new ≡ symbols.old) }
{
    match symbols.define(name, value) {
        Ok(()) => Ok(()),
        Err(DefineError::Duplicate) => Err(Failure::Refused(AsmCause::DuplicateLabel)),
        Err(DefineError::Memory) => Err(Failure::Memory),
    }
}
