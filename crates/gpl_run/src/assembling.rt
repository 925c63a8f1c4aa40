//! The module of the interpreter's source.

ghost use Rattle.std.specs.Prelude.{◌≡◌, [], ◌∷◌, ◌++◌, ℕ, List, Ok, map, OnOk, IfOk};
ghost use Rattle.asm_defs.specs.Modules.{module_of_source};
ghost use Rattle.native_interp.specs.Source.{lines, source};
ghost use Rattle.object_tags.specs.Seen.{model_of_module};
ghost use Rattle.native_interp.specs.declared.source.tables.TheConstants as tables;
ghost use Rattle.native_interp.specs.declared.source.routines.TheConstants as routines;
ghost use Rattle.native_interp.specs.declared.source.operations.TheConstants as operations;
ghost use Rattle.native_interp.specs.declared.source.flow.TheConstants as flow;
ghost use Rattle.native_interp.specs.declared.source.copy.TheConstants as copy;
ghost use Rattle.gpl_run.specs.Feeding.{HasLeft};

use crate::error::BuildError;
use asm_core::{AsmError, AsmLines};
use native_interp::{COPY_LINES, FLOW_LINES, OPERATION_LINES, ROUTINE_LINES, TABLE_LINES};
use object_tags::Module;
use std::alloc::Global;

/// The module of the interpreter's source, whose lines the assembler takes one at a time.
pub(crate) fn interpreter_module(alloc: Global) -> Result<Module, BuildError>
    ensures { IfOk result (λ found. module_of_source source ≡ Ok (model_of_module found)) }
{
    let mut builder = AsmLines::new(alloc);
    take_source(&mut builder)?;
    match builder.finish() {
        Ok(module) => Ok(module),
        Err(AsmError::At { .. }) => unreachable!(),
        Err(AsmError::Memory) => Err(BuildError::Memory),
    }
}

/// Takes the lines of the source.
fn take_source(builder: &mut AsmLines) -> Result<(), BuildError>
    requires { HasLeft lines builder.old }
    ensures { OnOk result (HasLeft [] builder.new) }
{
    take_lines(builder, table_lines())?;
    take_lines(builder, routine_lines())?;
    take_lines(builder, operation_lines())?;
    take_lines(builder, flow_lines())?;
    take_lines(builder, copy_lines())
}

// The five parts of the source. Each is a call, so that the proof of the five together sees none of their lines.

fn table_lines() -> &'static [&'static str]
    ensures { map (λ line. line.now) result.now ≡ map (λ line. line.now) tables.TABLE_LINES }
{
    &TABLE_LINES
}

fn routine_lines() -> &'static [&'static str]
    ensures { map (λ line. line.now) result.now ≡ map (λ line. line.now) routines.ROUTINE_LINES }
{
    &ROUTINE_LINES
}

fn operation_lines() -> &'static [&'static str]
    ensures { map (λ line. line.now) result.now ≡ map (λ line. line.now) operations.OPERATION_LINES }
{
    &OPERATION_LINES
}

fn flow_lines() -> &'static [&'static str]
    ensures { map (λ line. line.now) result.now ≡ map (λ line. line.now) flow.FLOW_LINES }
{
    &FLOW_LINES
}

fn copy_lines() -> &'static [&'static str]
    ensures { map (λ line. line.now) result.now ≡ map (λ line. line.now) copy.COPY_LINES }
{
    &COPY_LINES
}

/// Takes lines, which are the next of the source.
fn take_lines(builder: &mut AsmLines, lines: &[&str]) -> Result<(), BuildError>
    requires { (rest : List (List ℕ)) × HasLeft (map (λ line. line.now) lines.now ++ rest) builder.old }
    ensures { (rest : List (List ℕ)) → HasLeft (map (λ line. line.now) lines.now ++ rest) builder.old →
        OnOk result (HasLeft rest builder.new) }
{
    for line in lines {
        take_line(builder, line)?;
    }
    Ok(())
}

/// Takes a line, which is the next of the source. After the one that ends the source none is read.
fn take_line(builder: &mut AsmLines, line: &str) -> Result<(), BuildError>
    requires { (rest : List (List ℕ)) × HasLeft (line.now ∷ rest) builder.old }
    ensures { (rest : List (List ℕ)) → HasLeft (line.now ∷ rest) builder.old → OnOk result (HasLeft rest builder.new) }
{
    if builder.is_ended() {
        return Ok(());
    }
    match builder.line(line.as_bytes()) {
        Ok(taken) => {
            drop(taken);
            Ok(())
        }
        Err(AsmError::At { .. }) => unreachable!(),
        Err(AsmError::Memory) => Err(BuildError::Memory),
    }
}
