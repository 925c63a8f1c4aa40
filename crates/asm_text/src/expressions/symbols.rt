//! The names of a source and their values.

ghost use Rattle.std.specs.Prelude.{◌≡◌, ◌↔◌, ◌<◌, ◌≤◌, None, IsSome, OnOk, OnErr, IfSome};
ghost use Rattle.std.specs.Prelude.{nat_eq, map, Ok, Err, Some, IsTrue, List, ℕ};
ghost use Rattle.std.specs.BTreeMap as tree;
ghost use Rattle.std.specs.Ordering.{nat_cmp};
ghost use Rattle.std.specs.Cmp.Lexicographic.{pointwise, slice_cmp};
ghost use Rattle.std.specs.FinMap.{insert, get, find, remove};
ghost use Rattle.std.specs.Option.{option_map};
ghost use Rattle.expression_defs.specs.Symbols as spec;
ghost use Rattle.expression_defs.specs.Expression.{Absolute, expression};
ghost use Rattle.expression_defs.specs.Expression as values;
ghost use Rattle.source_defs.specs.Characters.{upper_case};
ghost use Rattle.source_defs.specs.Names.{is_name};
ghost use Rattle.asm_text.specs.GivenValues.{model_of_value};
ghost use Rattle.asm_text.specs.Kept.{begins_as_register};

use crate::characters::{is_digit, upper_case};
use crate::expressions::values::Value;
use crate::name::Name;
use std::alloc::Global;
use std::collections::BTreeMap;
use std::marker::Model;

/// Why a name is not defined.
#[derive(Clone, Copy, Debug, PartialEq, Eq)]
pub enum DefineError {
    /// The name stands for something already.
    Duplicate,
    /// Memory ran out.
    Memory,
}

/// The names of a source, each with its value. R0 to R15 stand for 0 to 15 from the start.
///
/// Contracts see it as the finite map from names to values.
#[derive(Drop)]
pub struct Symbols {
    // The names that were defined; no register is one of them.
    defined: BTreeMap<Name, Value>,
}

impl Model for Symbols {
    ghost use Rattle.std.specs.FinMap.{code};
    ghost use Rattle.std.specs.Coded.{coded_list, coded_ℕ};
    ghost use Rattle.expression_defs.specs.Symbols.{Names};
    ghost use Rattle.asm_text.specs.Kept.{names_of};
    ghost use Rattle.asm_text.specs.ValueCode.{value_code};

    ghost Value = { Names };

    ghost coded = { code (coded_list coded_ℕ) value_code };

    ghost view = { λ symbols. names_of symbols.defined.entries };
}

impl Symbols {
    /// The registers and no other name. It takes no memory.
    pub fn new(alloc: Global) -> Symbols
        ensures { result ≡ spec.predefined }
    {
        Symbols {
            defined: BTreeMap::new(alloc),
        }
    }

    /// Defines a name that stands for nothing yet.
    ///
    /// # Errors
    /// `Duplicate` comes exactly where the name stands for something already, and `Memory` means that memory ran out.
    /// After an error all is as before.
    pub fn define(&mut self, name: Name, value: Value) -> Result<(), DefineError>
        ensures defined { OnOk result (self.new ≡ insert self.old name (model_of_value value)) }
        ensures no_register { OnOk result (find (slice_cmp nat_cmp) name spec.registers ≡ None) }
        ensures duplicate { (result ≡ Err DefineError.Duplicate) ↔ IsSome (get self.old name) }
        ensures unchanged { OnErr result (self.new ≡ self.old) }
    {
        let kept = &mut self.defined;
        if register_number(name.as_bytes()).is_some() {
            return Err(DefineError::Duplicate);
        }
        insert_new(kept, name, value)
    }

    /// Takes a name out, which is no register, and answers what it stood for. All other names stay. It takes no memory.
    pub fn remove(&mut self, name: &Name) -> Option<Value>
        requires { find (slice_cmp nat_cmp) name.now spec.registers ≡ None }
        ensures was { option_map model_of_value result ≡ get self.old name.now }
        ensures removed { self.new ≡ remove self.old name.now }
    {
        self.defined.remove(name)
    }

    /// What a text stands for that is the name of a register alone, its letter in either case.
    pub(crate) fn register_in(&self, text: &[u8]) -> Option<Value>
        ensures { IfSome result (λ value. (here : values.Value) →
            expression (spec.look_up self.now) here text.now ≡ Ok (model_of_value value)) }
    {
        // The clause speaks of the names that are kept.
        let _ = &self.defined;
        let number = register_written(text)?;
        Some(Value::Absolute(number))
    }

    /// What a name stands for.
    pub fn get(&self, name: &Name) -> Option<Value>
        ensures { option_map model_of_value result ≡ get self.now name.now }
    {
        match register_number(name.as_bytes()) {
            Some(number) => Some(Value::Absolute(number)),
            None => self.defined.get(name).copied(),
        }
    }
}

/// Keeps a value for a name for which none is kept yet. After an error all is as before.
fn insert_new(kept: &mut BTreeMap<Name, Value>, name: Name, value: Value) -> Result<(), DefineError>
    ensures kept { OnOk result (tree.Updates (slice_cmp nat_cmp) kept.old kept.new name (Some value)) }
    ensures fresh { OnOk result (tree.get (slice_cmp nat_cmp) kept.old name ≡ None) }
    ensures duplicate { (result ≡ Err DefineError.Duplicate) ↔ IsSome (tree.get (slice_cmp nat_cmp) kept.old name) }
    ensures unchanged { OnErr result ((asked : List ℕ) →
        tree.get (slice_cmp nat_cmp) kept.new asked ≡ tree.get (slice_cmp nat_cmp) kept.old asked) }
{
    match kept.insert(name, value) {
        Ok(None) => Ok(()),
        Ok(Some(before)) => {
            put_back(kept, name, before);
            Err(DefineError::Duplicate)
        }
        Err(_) => Err(DefineError::Memory),
    }
}

/// Keeps another value for a name for which one is kept. It takes no memory.
fn put_back(kept: &mut BTreeMap<Name, Value>, name: Name, value: Value)
    requires { IsSome (tree.get (slice_cmp nat_cmp) kept.old name) }
    ensures { tree.Updates (slice_cmp nat_cmp) kept.old kept.new name (Some value) }
{
    match kept.insert(name, value) {
        Ok(_) => {}
        Err(_) => unreachable!(),
    }
}

/// The number of the register whose name a text is, its letter in either case.
fn register_written(text: &[u8]) -> Option<u16>
    ensures number { IfSome result (λ number. number < 16) }
    ensures name { IsSome result → IsTrue (is_name text.now) }
    ensures written { IfSome result (λ number. map upper_case text.now ≡ spec.register_name number) }
{
    match text {
        [letter, digit] if upper_case(*letter) == b'R' && is_digit(*digit) => {
            Some(u16::from(*digit - b'0'))
        }
        [letter, one, digit]
            if upper_case(*letter) == b'R' && *one == b'1' && is_digit(*digit) && *digit <= b'5' =>
            { Some(10 + u16::from(*digit - b'0')) }
        _ => None,
    }
}

/// The number of the register that a name is.
fn register_number(name: &[u8]) -> Option<u16>
    ensures { option_map Absolute result ≡ find (slice_cmp nat_cmp) name.now spec.registers }
{
    if !begins_as_register(name) {
        return None;
    }
    for number in 0..16 {
        if is_register(name, number) {
            return Some(number);
        }
    }
    None
}

/// Whether a name begins with the letter of the registers.
fn begins_as_register(name: &[u8]) -> bool
    ensures { result ≡ begins_as_register name.now }
{
    match name {
        [first, ..] => *first == b'R',
        [] => false,
    }
}

/// Whether a name is R with a number.
fn is_register(name: &[u8], number: u16) -> bool
    requires { number < 16 }
    ensures { result ≡ pointwise nat_eq name.now (spec.register_name number) }
{
    match name {
        [letter, digit] => *letter == b'R' && number < 10 && *digit == b'0' + number as u8,
        [letter, one, digit] => {
            *letter == b'R' && *one == b'1' && number >= 10 && *digit == b'0' + (number - 10) as u8
        }
        _ => false,
    }
}
