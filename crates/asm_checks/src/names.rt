//! The names that a line defines or refers to.

ghost use Rattle.std.specs.Prelude.{◌≡◌, true, IfOk, IsTrue};
ghost use Rattle.source_defs.specs.Operands.{operand_texts};
ghost use Rattle.asm_defs.specs.Statements.{all_names, upper_names};
ghost use Rattle.asm_defs.specs.FirstChecks as spec;

use asm_text::{Name, Symbols, operands, upper_case_name};
use std::alloc::{AllocError, Global};

/// The names of a field, in upper case. Each of its operands is a name.
pub(crate) fn names_in(alloc: Global, field: &[u8]) -> Result<Vec<Name>, AllocError>
    requires { IsTrue (all_names (operand_texts field.now)) }
    ensures { IfOk result (λ names. names.items ≡ upper_names (operand_texts field.now)) }
{
    let mut names = Vec::new(alloc);
    for span in operands(field) {
        if let Some(name) = upper_case_name(&field[span.start..span.end]) {
            names.push(name)?;
        }
    }
    Ok(names)
}

/// Whether one of some names stands for something.
pub(crate) fn any_known(symbols: &Symbols, names: &[Name]) -> bool
    ensures { result ≡ spec.any_known symbols.now names.now }
{
    names.iter().any(|name| symbols.get(name).is_some())
}

/// Whether a name is among others.
fn is_among(name: &Name, others: &[Name]) -> bool
    ensures { result ≡ spec.is_among name.now others.now }
{
    others.contains(name)
}

/// Whether one of some names is among earlier ones, or twice among them.
pub(crate) fn repeats(earlier: &[Name], names: &[Name]) -> bool
    ensures { result ≡ spec.repeats earlier.now names.now }
{
    let mut rest = names;
    while let [name, others @ ..] = rest {
        if is_among(name, earlier) || is_among(name, others) {
            return true;
        }
        rest = others;
    }
    false
}

/// Whether a name of REF stands for something already: by a line before, by the label of its line, or by REF itself.
pub(crate) fn is_taken(symbols: &Symbols, label: Option<Name>, names: &[Name]) -> bool
    ensures { result ≡ spec.is_taken symbols.now label names.now }
{
    any_known(symbols, names) || repeats(label_in(&label), names)
}

/// The label as a list.
pub(crate) fn label_in(label: &Option<Name>) -> &[Name]
    ensures { result.now ≡ spec.label_in label.now }
{
    match label {
        Some(name) => std::slice::from_ref(name),
        None => &[],
    }
}
