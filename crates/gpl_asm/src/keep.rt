//! The first pass over a line, and how a builder keeps it.

ghost use Rattle.std.specs.Prelude.{◌≡◌, ◌<◌, ◌+◌, ◌-◌, ◌^◌, ◌++◌, Ok, ℕ, OnOk, OnErr, IfOk};
ghost use Rattle.expression_defs.specs.Layout.{with_names};
ghost use Rattle.expression_defs.specs.Symbols.{Names, look_up};
ghost use Rattle.expression_defs.specs.Growing.{Grows};
ghost use Rattle.gpl_source_defs.specs.FirstChecks.{label_entry, parsed};
ghost use Rattle.gpl_source_defs.specs.declared.location.Location.{Location};
ghost use Rattle.gpl_source_defs.specs.SecondChecks.{Bytes, outcome};
ghost use Rattle.gpl_source_defs.specs.Growing as growing;
ghost use Rattle.gpl_lines.specs.Defined.{model_of_statement};
ghost use Rattle.gpl_lines.specs.Validity.{IsValid};
ghost use Rattle.gpl_asm.specs.Replay.{answer, WaitsForSome};
ghost use Rattle.gpl_asm.specs.Keeping.{pending_of, KeepsRest};
ghost use Rattle.gpl_asm.specs.Room.{AllHaveRoom};

use crate::lines::GplLines;
use crate::pending::{Pending, Rest};
use asm_text::{ExprError, Name, Symbols, Value};
use gpl_lines::{Failure, Outcome, Scope, Statement};
use gpl_source_defs::GplCause;
use std::alloc::AllocError;

/// Assembles a line that the first checks accept by the names that are known: what is left of it for the second
/// pass; none where it has no outcome.
#[tactic(auto, using(crate::proofs::RestLaws::open_again, crate::proofs::RestLaws::closed_again))]
pub(crate) fn assemble_line(
    scope: &Scope<'_>,
    text: &[u8],
    statement: &Statement<'_>,
) -> Result<Option<Rest>, AllocError>
    requires valid { IsValid statement.now }
    requires parsed { parsed scope.now.symbols.now scope.now.at text.now ≡ Ok (model_of_statement statement.now) }
    ensures waits { IfOk result WaitsForSome }
    ensures answers { IfOk result (λ rest. (later : Names) → Grows scope.now.symbols.now later →
        answer later scope.now.at rest ≡ outcome (look_up later) scope.now.at (model_of_statement statement.now)) }
{
    match scope.outcome(statement) {
        Ok(Outcome::Bytes(bytes)) => Ok(assembled_bytes(bytes)),
        Ok(Outcome::Entry(address)) => Ok(Some(Rest::Resolved(Outcome::Entry(address)))),
        Err(Failure::Refused(cause)) => {
            if is_unresolved(cause) {
                let text = Vec::from_slice(scope.alloc, text)?;
                return Ok(Some(Rest::Unresolved(text)));
            }
            Ok(Some(Rest::Refused(cause)))
        }
        Err(Failure::Memory) => Err(AllocError),
    }
}

/// What is left of a line that places bytes; none where it places none.
fn assembled_bytes(bytes: Vec<u8>) -> Option<Rest>
    ensures waits { WaitsForSome result }
    ensures answers { (later : Names) (at : Location) → answer later at result ≡ Ok (Bytes bytes.items) }
{
    if bytes.is_empty() {
        return None;
    }
    Some(Rest::Resolved(Outcome::Bytes(bytes)))
}

/// Whether a refusal may be lifted by names that are still to come.
fn is_unresolved(cause: GplCause) -> bool
    ensures { result ≡ growing.is_unresolved cause }
{
    matches!(cause, GplCause::Expr(ExprError::UnknownName))
}

impl GplLines {
    /// Keeps what is left of the next line, and defines its label. If memory runs out, nothing of it is kept.
    pub(crate) fn keep(
        &mut self,
        rest: Option<Rest>,
        label: Option<Name>,
        number: u16,
    ) -> Result<(), AllocError>
        requires taken { self.old.taken < 2 ^ 32 - 1 }
        requires room { AllHaveRoom self.old.symbols (pending_of self.old rest) }
        requires fresh { Grows self.old.symbols (with_names self.old.symbols (label_entry label number)) }
        ensures waiting { OnOk result (self.new.waiting.items ≡ self.old.waiting.items ++ pending_of self.old rest) }
        ensures defined { OnOk result (self.new.symbols ≡ with_names self.old.symbols (label_entry label number)) }
        ensures same { OnErr result (self.new.waiting.items ≡ self.old.waiting.items) }
        ensures names { OnErr result (self.new.symbols ≡ self.old.symbols) }
        ensures still { KeepsRest self.old self.new }
    {
        let waiting = self.waiting.len();
        self.wait(rest)?;
        match define(&mut self.symbols, label, number) {
            Ok(()) => Ok(()),
            Err(error) => {
                self.waiting.truncate(waiting);
                Err(error)
            }
        }
    }

    /// Keeps what is left of the next line, where something is.
    fn wait(&mut self, rest: Option<Rest>) -> Result<(), AllocError>
        requires taken { self.old.taken < 2 ^ 32 - 1 }
        requires room { AllHaveRoom self.old.symbols (pending_of self.old rest) }
        ensures waiting { OnOk result (self.new.waiting.items ≡ self.old.waiting.items ++ pending_of self.old rest) }
        ensures same { OnErr result (self.new.waiting.items ≡ self.old.waiting.items) }
        ensures names { self.new.symbols ≡ self.old.symbols }
        ensures still { KeepsRest self.old self.new }
    {
        let Some(rest) = rest else {
            return Ok(());
        };
        self.waiting.push(Pending {
            number: self.taken + 1,
            at: self.location,
            rest,
        })?;
        Ok(())
    }
}

/// Defines a label that stands for nothing yet.
fn define(symbols: &mut Symbols, label: Option<Name>, number: u16) -> Result<(), AllocError>
    ensures defined { OnOk result (symbols.new ≡ with_names symbols.old (label_entry label number)) }
    ensures unchanged { OnErr result (symbols.new ≡ symbols.old) }
{
    let Some(name) = label else {
        return Ok(());
    };
    match symbols.define(name, Value::Absolute(number)) {
        Ok(()) => Ok(()),
        Err(_) => Err(AllocError),
    }
}
