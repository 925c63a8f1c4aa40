//! The second checks of a line, and what it places.

ghost use Rattle.std.specs.Prelude.{◌≡◌, ◌≤◌, map, IfOk, true, length, IsTrue};
ghost use Rattle.expression_defs.specs.Symbols.{look_up};
ghost use Rattle.asm_text.specs.GivenValues.{model_of_value};
ghost use Rattle.source_defs.specs.Operands.{operand_texts};
ghost use Rattle.instruction_defs.specs.SecondChecks.{second_checks};
ghost use Rattle.asm_forms.specs.Placed.{model_of_word, model_of_words, placed_words};
ghost use Rattle.asm_forms.specs.Skeletons.{model_of_skeleton, IsOfField};
ghost use Rattle.asm_defs.specs.Locations as places;
ghost use Rattle.asm_defs.specs.Statements as parsed;
ghost use Rattle.asm_defs.specs.FirstChecks as first;
ghost use Rattle.asm_defs.specs.SecondChecks as spec;
ghost use Rattle.asm_defs.specs.Growing as growing;
ghost use Rattle.std.specs.List.{list_all};
ghost use Rattle.source_defs.specs.Refusals.{map_ok};
ghost use Rattle.asm_text.specs.Yielded.{Yields};
ghost use Rattle.asm_checks.specs.Answers.{Gives};
ghost use Rattle.asm_checks.specs.Defined.{model_of_statement, KeepsSkeleton, NamesOnly};
ghost use Rattle.asm_checks.specs.Moves.{MovesLittle};
ghost use Rattle.asm_checks.specs.Outcomes.{model_of_outcome, byte_answer, known_answer, words_by};

use crate::failure::Failure;
use crate::moves::after;
use crate::names::names_in;
use crate::statement::{InstructionLine, Statement};
use crate::values::{Scope, value_at};
use asm_defs::{AsmCause, Location, Part};
use asm_forms::{Placed, Word, words_of};
use asm_text::{ExprError, Name, Symbols, Value, operands, quoted_characters};
use instruction_defs::FormError;
use object_defs::Spot;

/// The outcome of a line.
#[derive(Drop)]
pub enum Outcome {
    /// Nothing that is placed.
    Nothing,
    /// The words of an instruction.
    Instruction(Placed),
    /// The words of DATA.
    Words(Vec<Word>),
    /// Bytes.
    Bytes(Vec<u8>),
    /// The entry.
    Entry(Spot),
}

impl Outcome {
    /// Whether this outcome is final, whatever names are still to come.
    pub fn is_resolved(&self) -> bool
        ensures { result ≡ growing.is_resolved (model_of_outcome self.now) }
    {
        match self {
            Outcome::Instruction(placed) => all_own(placed.words.as_slice()),
            Outcome::Words(words) => all_own(words.as_slice()),
            Outcome::Nothing | Outcome::Bytes(_) => true,
            Outcome::Entry(_) => false,
        }
    }
}

impl Scope<'_> {
    /// The outcome of a line, of which the first checks found what it says.
    #[tactic(auto, using(crate::proofs::Failures::expr_fails), unfolding(asm_defs::specs::SecondChecks::outcome))]
    pub fn outcome(&self, statement: &Statement<'_>) -> Result<Outcome, Failure>
        requires skeleton { KeepsSkeleton statement.now }
        requires names { NamesOnly statement.now }
        requires little { MovesLittle statement.now }
        requires at { self.now.at.number ≤ 65536 }
        ensures { Gives model_of_outcome result
            (spec.outcome (look_up self.now.symbols.now) self.now.at (model_of_statement statement.now)) }
    {
        match statement {
            Statement::Instruction(line) => self.instruction_outcome(line),
            Statement::Data(field) => {
                let words = self.data_words(field)?;
                Ok(Outcome::Words(words))
            }
            Statement::Byte(field) => {
                let numbers = self.byte_values(field)?;
                let bytes = self.bytes_of(numbers.as_slice())?;
                Ok(Outcome::Bytes(bytes))
            }
            Statement::Text(quoted) => {
                let bytes = quoted_characters(self.alloc, quoted)?;
                Ok(Outcome::Bytes(bytes))
            }
            Statement::Def(field) => {
                self.check_defs(field)?;
                Ok(Outcome::Nothing)
            }
            Statement::End(Some(text)) => {
                let entry = self.entry_of(text)?;
                Ok(Outcome::Entry(entry))
            }
            _ => Ok(Outcome::Nothing),
        }
    }

    /// The words of an instruction, by what the first checks left of it.
    #[tactic(auto, using(crate::proofs::Failures::form_fails))]
    fn instruction_outcome(&self, line: &InstructionLine<'_>) -> Result<Outcome, Failure>
        requires { IsOfField line.now.field.now line.now.skeleton }
        ensures { Gives model_of_outcome result
            (words_by (second_checks (look_up self.now.symbols.now) (places.value_of self.now.at)
            (model_of_skeleton line.now.field.now line.now.skeleton))) }
    {
        let here = value_at(self.at);
        let placed = words_of(self.alloc, line.field, &line.skeleton, self.symbols, here)?;
        Ok(Outcome::Instruction(placed))
    }

    /// The words of DATA.
    #[tactic(auto, using(source_defs::proofs::OperandCounts::operands_le))]
    fn data_words(&self, field: &[u8]) -> Result<Vec<Word>, ExprError>
        requires at { self.now.at.number ≤ 65536 }
        requires field { length field.now ≤ 256 }
        ensures { Yields (λ words. model_of_words words.items) result
            (spec.data_values (look_up self.now.symbols.now) self.now.at self.now.at (operand_texts field.now)) }
    {
        let mut words = Vec::new(self.alloc);
        let mut place = self.at;
        for span in operands(field) {
            let word = self.word_in(&place, &field[span.start..span.end])?;
            if words.push(word).is_err() {
                return Err(ExprError::Memory);
            }
            place = after(place, 2);
        }
        Ok(words)
    }

    /// A value of DATA, whose word is at a place.
    fn word_in(&self, place: &Location, text: &[u8]) -> Result<Word, ExprError>
        ensures { Yields model_of_word result
            (spec.word_in (look_up self.now.symbols.now) self.now.at place.now text.now) }
    {
        let value = self.value_of(text)?;
        used_at(place, &value)
    }

    /// The values of BYTE.
    fn byte_values(&self, field: &[u8]) -> Result<Vec<u16>, ExprError>
        ensures { Yields (λ numbers. numbers.items) result
            (spec.byte_values (look_up self.now.symbols.now) self.now.at (operand_texts field.now)) }
    {
        let mut numbers = Vec::new(self.alloc);
        for span in operands(field) {
            let number = self.absolute_of(&field[span.start..span.end])?;
            if numbers.push(number).is_err() {
                return Err(ExprError::Memory);
            }
        }
        Ok(numbers)
    }

    /// Numbers as bytes.
    fn bytes_of(&self, numbers: &[u16]) -> Result<Vec<u8>, Failure>
        ensures { Gives (λ bytes. bytes.items) result (spec.checked_bytes numbers.now) }
    {
        let mut bytes = Vec::new(self.alloc);
        let mut rest = numbers;
        while let [number, others @ ..] = rest {
            let Some(byte) = byte_of(*number) else {
                return Err(Failure::Refused(AsmCause::Form(FormError::BadOperand)));
            };
            if bytes.push(byte).is_err() {
                return Err(Failure::Memory);
            }
            rest = others;
        }
        Ok(bytes)
    }

    /// Whether the names of DEF stand for something here.
    fn check_defs(&self, field: &[u8]) -> Result<(), Failure>
        requires { IsTrue (parsed.all_names (operand_texts field.now)) }
        ensures { Gives (λ _. spec.Nothing) result
            (spec.defs_known (look_up self.now.symbols.now) self.now.at (parsed.upper_names (operand_texts field.now))) }
    {
        let names = names_in(self.alloc, field)?;
        self.defs_known(names.as_slice())
    }

    /// Whether some names stand for something here.
    fn defs_known(&self, names: &[Name]) -> Result<(), Failure>
        ensures { Gives (λ _. spec.Nothing) result
            (spec.defs_known (look_up self.now.symbols.now) self.now.at names.now) }
    {
        let mut rest = names;
        while let [name, others @ ..] = rest {
            def_known(self.symbols, name)?;
            rest = others;
        }
        Ok(())
    }

    /// The entry that END gives.
    fn entry_of(&self, text: &[u8]) -> Result<Spot, ExprError>
        ensures { Yields (λ entry. entry) result (spec.entry_in (look_up self.now.symbols.now) self.now.at text.now) }
    {
        match self.value_of(text)? {
            Value::Absolute(number) => Ok(Spot::Absolute(number)),
            Value::Relocatable(number) => Ok(Spot::Relocatable(number)),
            Value::External(_) => Err(ExprError::BadRelocation),
        }
    }
}

/// Whether none of some words is a use of a name that others define.
fn all_own(words: &[Word]) -> bool
    ensures { result ≡ list_all growing.is_own (model_of_words words.now) }
{
    for word in words {
        if matches!(word, Word::External(_)) {
            return false;
        }
    }
    true
}

/// Whether a name of DEF stands for something here.
fn def_known(symbols: &Symbols, name: &Name) -> Result<(), Failure>
    ensures { Gives (λ _. spec.Nothing) result (known_answer (look_up symbols.now name.now)) }
{
    match symbols.get(name) {
        Some(Value::Absolute(_) | Value::Relocatable(_)) => Ok(()),
        Some(Value::External(_)) => Err(Failure::Refused(AsmCause::BadDirective)),
        None => Err(Failure::Refused(AsmCause::Expr(ExprError::UnknownName))),
    }
}

/// A word at a place, which is no use of an external name at absolute place 0.
fn used_at(place: &Location, value: &Value) -> Result<Word, ExprError>
    ensures { map_ok model_of_word result ≡ spec.used_at place.now (model_of_value value.now) }
{
    match value {
        Value::Absolute(number) => Ok(Word::Plain(*number)),
        Value::Relocatable(number) => Ok(Word::Relocatable(*number)),
        Value::External(_) if is_first(place) => Err(ExprError::BadRelocation),
        Value::External(name) => Ok(Word::External(*name)),
    }
}

/// Whether a place is absolute place 0.
fn is_first(place: &Location) -> bool
    ensures { result ≡ spec.is_first_by place.now.part place.now.number }
{
    matches!(place.part, Part::Absolute) && place.number == 0
}

/// A number from -128 to 255 as a byte.
fn byte_of(number: u16) -> Option<u8>
    ensures { byte_answer result ≡ spec.checked_byte number }
{
    if number <= 0xFF || number >= 0xFF80 {
        Some((number % 256) as u8)
    } else {
        None
    }
}
