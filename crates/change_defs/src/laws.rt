//! Laws of the definitions. Each function does nothing, and its contract is the law.

ghost use Rattle.change_defs.specs.Changes.{ChangesLead};
ghost use Rattle.change_defs.specs.Steps.{RunChangesLead};

/// The changes from a list of bytes to another of the same length, made in the first, give the other.
pub fn changes_lead()
    ensures { ChangesLead }
{}

/// The changes of the steps of a run, made one step after the other, give the state after each step, but for the
/// address of the next instruction.
pub fn run_changes_lead()
    ensures { RunChangesLead }
{}
