//! What a builder keeps of a line.

ghost use Rattle.std.specs.Prelude.{◌≡◌, ◌++◌, OnOk, OnErr, IfErr, option_to_list, IsFalse};
ghost use Rattle.expression_defs.specs.Growing.{Grows};
ghost use Rattle.asm_defs.specs.FirstChecks.{any_known, label_in, defs_in, refs_in};
ghost use Rattle.asm_checks.specs.Defined.{model_of_statement};
ghost use Rattle.asm_checks.specs.Checks.{model_of_earlier_lines, KnowsPlaces, ListsNames};
ghost use Rattle.asm_core.specs.Keeping.{known_in, names_with, KnowsLabel, Keeps, IsUnchanged, StartsAs, SameLists};
ghost use Rattle.asm_core.specs.Keeping.{SameNames};
ghost use Rattle.asm_core.specs.Keeping.{SameWork, KeepsRest};

use crate::define::define_line;
use crate::lines::AsmLines;
use crate::pending::Pending;
use asm_checks::{Checked, EarlierLines, Failure, Statement};
use std::alloc::AllocError;

impl AsmLines {
    /// What is known of the lines that were taken.
    pub(crate) fn known(&self) -> EarlierLines<'_>
        ensures known { model_of_earlier_lines result ≡ known_in self.now }
        ensures places { KnowsPlaces result }
    {
        EarlierLines {
            alloc: self.alloc,
            symbols: &self.symbols,
            location: self.location,
            reached: self.reached,
            defs: self.defs.as_slice(),
            refs: self.refs.as_slice(),
        }
    }

    /// Keeps the names of a line, whose label has to be new, and the line where it waits. After a failure nothing of it
    /// is kept.
    #[inline(always)]
    pub(crate) fn keep(
        &mut self,
        waiting: Option<Pending>,
        checked: &Checked<'_>,
    ) -> Result<(), Failure>
        requires { ListsNames checked.now.parsed }
        ensures kept { OnOk result (Keeps self.old waiting checked.now self.new) }
        ensures fresh { OnOk result (IsFalse (any_known self.old.symbols (label_in checked.now.parsed.label))) }
        ensures known { IfErr result (KnowsLabel self.old.symbols checked.now.parsed.label) }
        ensures unchanged { OnErr result (IsUnchanged self.old self.new) }
        ensures work { SameWork self.old self.new }
        ensures still { KeepsRest self.old self.new }
    {
        let others = self.waiting.len();
        let defs = self.defs.len();
        let refs = self.refs.len();
        let added = self.add(waiting, checked);
        if added.is_err() {
            self.waiting.truncate(others);
            self.defs.truncate(defs);
            self.refs.truncate(refs);
        }
        added
    }

    /// Adds a line with its names, of which its label has to be new. After a failure no name of it is defined.
    fn add(&mut self, waiting: Option<Pending>, checked: &Checked<'_>) -> Result<(), Failure>
        requires { ListsNames checked.now.parsed }
        ensures kept { OnOk result (Keeps self.old waiting checked.now self.new) }
        ensures fresh { OnOk result (IsFalse (any_known self.old.symbols (label_in checked.now.parsed.label))) }
        ensures known { IfErr result (KnowsLabel self.old.symbols checked.now.parsed.label) }
        ensures names { OnErr result (self.new.symbols ≡ self.old.symbols) }
        ensures starts { OnErr result (StartsAs self.old self.new) }
        ensures work { SameWork self.old self.new }
        ensures still { KeepsRest self.old self.new }
    {
        self.wait(waiting)?;
        self.list_names(checked)?;
        self.define_names(checked)
    }

    /// Keeps a line that waits.
    fn wait(&mut self, waiting: Option<Pending>) -> Result<(), AllocError>
        ensures waits { OnOk result (self.new.waiting.items ≡ self.old.waiting.items ++ option_to_list waiting) }
        ensures unchanged { OnErr result (self.new.waiting.items ≡ self.old.waiting.items) }
        ensures names { SameNames self.old self.new }
        ensures work { SameWork self.old self.new }
        ensures still { KeepsRest self.old self.new }
    {
        match waiting {
            Some(line) => {
                self.waiting.push(line)?;
                Ok(())
            }
            None => Ok(()),
        }
    }

    /// Defines the label, which has to be new, and the names of REF.
    fn define_names(&mut self, checked: &Checked<'_>) -> Result<(), Failure>
        requires { ListsNames checked.now.parsed }
        ensures defined { OnOk result (self.new.symbols ≡ names_with self.old.symbols checked.now) }
        ensures fresh { OnOk result (IsFalse (any_known self.old.symbols (label_in checked.now.parsed.label))) }
        ensures known { IfErr result (KnowsLabel self.old.symbols checked.now.parsed.label) }
        ensures grows { OnOk result (Grows self.old.symbols self.new.symbols) }
        ensures unchanged { OnErr result (self.new.symbols ≡ self.old.symbols) }
        ensures lists { SameLists self.old self.new }
        ensures work { SameWork self.old self.new }
        ensures still { KeepsRest self.old self.new }
    {
        let refs = match checked.parsed.statement {
            Statement::Ref(_) => checked.parsed.listed.as_slice(),
            _ => &[],
        };
        define_line(
            &mut self.symbols,
            checked.parsed.label,
            checked.moved.label,
            refs,
        )
    }

    /// Lists the names of DEF and REF.
    fn list_names(&mut self, checked: &Checked<'_>) -> Result<(), AllocError>
        requires { ListsNames checked.now.parsed }
        ensures defs { OnOk result
            (self.new.defs.items ≡ self.old.defs.items ++ defs_in (model_of_statement checked.now.parsed.statement)) }
        ensures refs { OnOk result
            (self.new.refs.items ≡ self.old.refs.items ++ refs_in (model_of_statement checked.now.parsed.statement)) }
        ensures unchanged { OnErr result
            ((self.new.defs.items ≡ self.old.defs.items) × (self.new.refs.items ≡ self.old.refs.items)) }
        ensures waiting { self.new.waiting ≡ self.old.waiting }
        ensures symbols { self.new.symbols ≡ self.old.symbols }
        ensures work { SameWork self.old self.new }
        ensures still { KeepsRest self.old self.new }
    {
        match checked.parsed.statement {
            Statement::Def(_) => self
                .defs
                .extend_from_slice(checked.parsed.listed.as_slice()),
            Statement::Ref(_) => self
                .refs
                .extend_from_slice(checked.parsed.listed.as_slice()),
            _ => Ok(()),
        }
    }
}
