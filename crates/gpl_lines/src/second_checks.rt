//! The second checks of a line, and what it places.

ghost use Rattle.std.specs.Prelude.{◌≡◌, ◌≤◌, IsTrue, IfOk};
ghost use Rattle.std.specs.List.{flat_map};
ghost use Rattle.gpl_defs.specs.Bytes.{word_bytes};
ghost use Rattle.gpl_defs.specs.Valid.{is_valid};
ghost use Rattle.gpl_defs.specs.declared.instruction.GplInstr.TheVariants as instr;
ghost use Rattle.expression_defs.specs.Symbols.{look_up};
ghost use Rattle.gpl_source_defs.specs.SecondChecks as spec;
ghost use Rattle.gpl_source_defs.specs.Values as values;
ghost use Rattle.gpl_lines.specs.Answers.{Gives};
ghost use Rattle.gpl_lines.specs.Defined.{model_of_outcome, model_of_route, model_of_skeleton, model_of_source};
ghost use Rattle.gpl_lines.specs.Defined.{model_of_statement};
ghost use Rattle.gpl_lines.specs.Validity.{IsValid, IsValidSkeleton};

use crate::failure::Failure;
use crate::numbers::{branch_offset, byte_of, immediate_of, index_of, register_of};
use crate::skeleton::{Route, Skeleton, Source};
use crate::statement::Statement;
use crate::values::Scope;
use asm_text::quoted_characters;
use gpl_defs::{GplInstr, GplSource, MoveLength, MoveSource, MoveTarget};
use gpl_forms::write_instr;
use std::alloc::{AllocError, Global};

/// The outcome of a line.
#[derive(Drop)]
pub enum Outcome {
    /// The bytes that it places, which may be none.
    Bytes(Vec<u8>),
    /// The entry.
    Entry(u16),
}

impl Scope<'_> {
    /// The outcome of a line that the first checks accepted.
    ///
    /// # Errors
    /// `Refused` carries what its values or their ranges are refused for first, and comes exactly where they are.
    /// `Memory` means that memory ran out.
    #[tactic(auto, unfolding(gpl_source_defs::specs::SecondChecks::outcome))]
    pub fn outcome(&self, statement: &Statement<'_>) -> Result<Outcome, Failure>
        requires { IsValid statement.now }
        ensures { Gives model_of_outcome result
            (spec.outcome (look_up self.now.symbols.now) self.now.at (model_of_statement statement.now)) }
    {
        match statement {
            Statement::Instruction(skeleton) => {
                let instr = self.instruction(skeleton)?;
                let bytes = Vec::from_slice(self.alloc, write_instr(&instr).as_slice())?;
                Ok(Outcome::Bytes(bytes))
            }
            Statement::Data(field) => {
                let words = self.numbers(field)?;
                let bytes = bytes_of_words(self.alloc, words.as_slice())?;
                Ok(Outcome::Bytes(bytes))
            }
            Statement::Byte(field) => {
                let numbers = self.numbers(field)?;
                let bytes = bytes_of(self.alloc, numbers.as_slice())?;
                Ok(Outcome::Bytes(bytes))
            }
            Statement::Text(quoted) => {
                let bytes = quoted_characters(self.alloc, quoted)?;
                Ok(Outcome::Bytes(bytes))
            }
            Statement::End(Some(text)) => {
                let address = self.number(text)?;
                Ok(Outcome::Entry(address))
            }
            Statement::Nothing
            | Statement::Grom(_)
            | Statement::Aorg(_)
            | Statement::Equ(_)
            | Statement::Bss(_)
            | Statement::End(None) => Ok(Outcome::Bytes(Vec::new(self.alloc))),
        }
    }

    /// The instruction that a skeleton is.
    fn instruction(&self, skeleton: &Skeleton<'_>) -> Result<GplInstr, Failure>
        requires { IsValidSkeleton skeleton.now }
        ensures found { Gives (λ instr. instr) result
            (spec.instruction (look_up self.now.symbols.now) self.now.at (model_of_skeleton skeleton.now)) }
        ensures valid { IfOk result (λ instr. IsTrue (is_valid instr)) }
    {
        match *skeleton {
            Skeleton::Plain(op) => Ok(GplInstr::Plain(op)),
            Skeleton::Byte(op, text) => {
                let number = self.number(text)?;
                let value = byte_of(number)?;
                Ok(GplInstr::Byte { op, value })
            }
            Skeleton::Jump(op, text) => {
                let to = self.number(text)?;
                Ok(GplInstr::Jump { op, to })
            }
            Skeleton::Branch(on, text) => {
                let target = self.number(text)?;
                let offset = branch_offset(self.at, target)?;
                Ok(GplInstr::Branch { on, offset })
            }
            Skeleton::One(op, word, at) => Ok(GplInstr::One { op, word, at }),
            Skeleton::Two(op, word, dst, source) => {
                let src = self.source(word, source)?;
                Ok(GplInstr::Two { op, word, dst, src })
            }
            Skeleton::Move(length, route) => {
                let length = self.length(length)?;
                self.moved(length, route)
            }
        }
    }

    /// A source.
    fn source(&self, word: bool, source: Source<'_>) -> Result<GplSource, Failure>
        ensures found { Gives (λ source. source) result
            (spec.source_value (look_up self.now.symbols.now) self.now.at word (model_of_source source.entry)) }
    {
        match source {
            Source::At(operand) => Ok(GplSource::At(operand)),
            Source::Immediate(text) => {
                let number = self.number(text)?;
                let immediate = immediate_of(word, number)?;
                Ok(GplSource::Immediate(immediate))
            }
        }
    }

    /// The length of MOVE.
    fn length(&self, length: Source<'_>) -> Result<MoveLength, Failure>
        ensures { Gives (λ length. length) result
            (spec.length_value (look_up self.now.symbols.now) self.now.at (model_of_source length.entry)) }
    {
        match length {
            Source::At(operand) => Ok(MoveLength::At(operand)),
            Source::Immediate(text) => {
                let count = self.number(text)?;
                Ok(MoveLength::Immediate(count))
            }
        }
    }

    /// MOVE, by its length, and by where it copies to and from.
    fn moved(&self, length: MoveLength, route: Route<'_>) -> Result<GplInstr, Failure>
        ensures found { Gives (λ instr. instr) result
            (spec.moved (look_up self.now.symbols.now) self.now.at length (model_of_route route.entry)) }
        ensures valid { IfOk result (λ instr. IsTrue (is_valid instr)) }
    {
        match route {
            Route::Within(to, from) => Ok(move_instr(
                length,
                MoveTarget::At(to),
                MoveSource::At(from),
            )),
            Route::ToMemory(to, address, None) => {
                let start = self.number(address)?;
                Ok(move_instr(length, MoveTarget::At(to), MoveSource::Grom(start)))
            }
            Route::ToMemory(to, address, Some(text)) => {
                let start = self.number(address)?;
                let number = self.number(text)?;
                let index = index_of(number)?;
                Ok(move_instr(
                    length,
                    MoveTarget::At(to),
                    MoveSource::GromIndexed(start, index),
                ))
            }
            Route::ToRegisters(first, address) => {
                let number = self.number(first)?;
                let start = self.number(address)?;
                let register = register_of(number)?;
                Ok(move_instr(
                    length,
                    MoveTarget::Register(register),
                    MoveSource::Grom(start),
                ))
            }
        }
    }
}

/// MOVE.
fn move_instr(length: MoveLength, target: MoveTarget, source: MoveSource) -> GplInstr
    ensures { result ≡ instr.Move length target source }
{
    GplInstr::Move {
        length,
        target,
        source,
    }
}

/// The bytes of words, the high byte of each first.
fn bytes_of_words(alloc: Global, words: &[u16]) -> Result<Vec<u8>, AllocError>
    ensures { IfOk result (λ bytes. bytes.items ≡ flat_map word_bytes words.now) }
{
    let mut bytes = Vec::new(alloc);
    for &word in words {
        let [high, low] = word.to_be_bytes();
        bytes.push(high)?;
        bytes.push(low)?;
    }
    Ok(bytes)
}

/// Numbers as bytes.
fn bytes_of(alloc: Global, numbers: &[u16]) -> Result<Vec<u8>, Failure>
    ensures { Gives (λ bytes. bytes.items) result (values.checked_bytes numbers.now) }
{
    let mut bytes = Vec::new(alloc);
    let mut rest = numbers;
    while let [number, others @ ..] = rest {
        let byte = byte_of(*number)?;
        if bytes.push(byte).is_err() {
            return Err(Failure::Memory);
        }
        rest = others;
    }
    Ok(bytes)
}
