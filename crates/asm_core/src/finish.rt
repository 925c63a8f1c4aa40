//! The module of the lines that a builder has taken.

ghost use Rattle.std.specs.Prelude.{◌≡◌, List, [], map, IfOk};
ghost use Rattle.source_defs.specs.Orders.{onto};
ghost use Rattle.object_defs.specs.Modules.{Reference};
ghost use Rattle.object_tags.specs.Seen.{model_of_def, model_of_ref, model_of_module};
ghost use Rattle.asm_defs.specs.Locations.{Line};
ghost use Rattle.asm_defs.specs.FirstChecks as first;
ghost use Rattle.asm_defs.specs.Memory.{AssembledLine};
ghost use Rattle.asm_defs.specs.Modules.{unused, module_by, module_after, definition_in};
ghost use Rattle.asm_checks.specs.Outcomes.{model_of_spot};
ghost use Rattle.asm_core.specs.declared.pending.Pending.{Pending};
ghost use Rattle.module_image.specs.ResolvedLines.{AreAllResolved};
ghost use Rattle.asm_core.specs.Building.{AreKnown, ImageOf, IsStopped, IsAfter, refusal_at, error_of};
ghost use Rattle.asm_core.specs.Resolving.{IsOutput};
ghost use Rattle.asm_core.specs.Finishing.{GivesModule, Knows, SameEnd, ResolvesAll, StopsAfter};

use crate::error::AsmError;
use crate::lines::AsmLines;
use crate::pending::Refused;
use crate::second_pass::{Output, unused_references};
use asm_checks::Failure;
use asm_text::{Name, Symbols, Value};
use module_image::{Image, pieces};
use object_defs::Spot;
use object_tags::{Def, Defs, Module, Ref, Refs};
use std::alloc::{AllocError, Global};

impl AsmLines {
    /// The module of the lines, or the first that the second checks refuse. The lines are given up.
    pub(crate) fn module(&mut self) -> Result<Module, AsmError>
        ensures gives { (lines : List Line) → IsAfter lines self.old → GivesModule result (module_after lines) }
        ensures names { self.new.symbols ≡ self.old.symbols }
    {
        let mut output = self.output()?;
        self.resolve_all(&mut output)?;
        if let Some(refused) = &self.refused {
            return Err(stopped(&self.symbols, &mut output, refused));
        }
        let module = self.module_of(&output)?;
        Ok(module)
    }

    /// The output of the first pass. The builder gives up its image.
    fn output(&mut self) -> Result<Output, AllocError>
        ensures output { IfOk result (λ output. (founds : List AssembledLine) → ImageOf (onto [] founds) self.old.image →
            IsOutput (map unused self.old.refs.items) [] founds output) }
        ensures same { SameEnd self.old self.new }
    {
        let references = unused_references(self.alloc, self.refs.as_slice())?;
        let image = match self.image.take() {
            Some(image) => image,
            None => Image::new(self.alloc)?,
        };
        Ok(Output {
            alloc: self.alloc,
            image,
            references,
            entry: None,
        })
    }

    /// Resolves the lines that wait in their order, up to the first that is refused.
    fn resolve_all(&self, output: &mut Output) -> Result<(), AsmError>
        ensures { (unused : List Reference) (order : List Line) (founds : List AssembledLine) →
            AreKnown self.now.symbols [] order founds self.now.waiting.items → AreAllResolved [] founds →
            ResolvesAll unused order founds self.now.symbols result output.old output.new }
    {
        for pending in self.waiting.as_slice() {
            match output.resolve(&self.symbols, pending) {
                Ok(()) => {}
                Err(failure) => return Err(refusal(pending.number, failure)),
            }
        }
        Ok(())
    }

    /// The module of lines that are all resolved.
    fn module_of(&self, output: &Output) -> Result<Module, AllocError>
        ensures { (lines : List Line) (assembled_lines : List AssembledLine) → Knows lines self.now →
            IsOutput (map unused (first.refs lines)) assembled_lines [] output.now →
            IfOk result (λ found. model_of_module found ≡ module_by lines assembled_lines) }
    {
        Ok(Module {
            name: self.title,
            size: self.reached as u16,
            pieces: pieces(self.alloc, &output.image)?,
            defs: defs(self.alloc, &self.symbols, self.defs.as_slice())?,
            refs: refs(self.alloc, output.references.as_slice())?,
            entry: output.entry,
        })
    }
}

/// Why a line is refused where those before it are resolved: a value of it, else what was known when it was taken.
fn stopped(symbols: &Symbols, output: &mut Output, refused: &Refused) -> AsmError
    ensures { (lines : List Line) (waiting : List Pending) (done : List AssembledLine)
        → (is : IsStopped refused.now lines symbols.now waiting) →
        StopsAfter symbols.now lines is.order is.founds done result }
{
    let Some(pending) = &refused.waiting else {
        return refused_at(refused);
    };
    match output.resolve(symbols, pending) {
        Ok(()) => {}
        Err(failure) => return refusal(pending.number, failure),
    }
    refused_at(refused)
}

/// The error of the line that is refused.
fn refused_at(refused: &Refused) -> AsmError
    ensures { result ≡ error_of refused.now }
{
    AsmError::At {
        line: refused.line,
        cause: refused.cause,
    }
}

/// The error of a line by its number.
fn refusal(line: u32, failure: Failure) -> AsmError
    ensures { result ≡ refusal_at line failure }
{
    match failure {
        Failure::Refused(cause) => AsmError::At { line, cause },
        Failure::Memory => AsmError::Memory,
    }
}

/// The names of DEF with what they stand for.
fn defs(alloc: Global, symbols: &Symbols, names: &[Name]) -> Result<Defs, AllocError>
    ensures { IfOk result (λ found. map model_of_def found ≡ map (definition_in symbols.now) names.now) }
{
    let mut found = Defs::new(alloc);
    for name in names {
        found.push(Def {
            name: *name,
            value: spot_of(symbols.get(name)),
        })?;
    }
    Ok(found)
}

/// The spot that a name stands for.
fn spot_of(value: Option<Value>) -> Spot
    ensures { result ≡ model_of_spot value }
{
    match value {
        Some(Value::Absolute(number)) => Spot::Absolute(number),
        Some(Value::Relocatable(number)) => Spot::Relocatable(number),
        Some(Value::External(_)) | None => Spot::Absolute(0),
    }
}

/// The names of REF with their last uses.
fn refs(alloc: Global, references: &[Ref]) -> Result<Refs, AllocError>
    ensures { IfOk result (λ found. map model_of_ref found ≡ map model_of_ref references.now) }
{
    let mut found = Refs::new(alloc);
    for reference in references {
        found.push(*reference)?;
    }
    Ok(found)
}
