//! Laws of the definitions. Each function does nothing, and its contract is the law.

ghost use Rattle.machine_change_defs.specs.Laws.{ChangesGiveMemory, OneStepsReport, StepsFrontsBeginReports};

/// The changes of the instructions of a run, made one instruction after the other, give the memory after each.
pub fn changes_give_memory()
    ensures { ChangesGiveMemory }
{}

/// There is at most one report of `steps` on each limit and input.
pub fn one_steps_report()
    ensures { OneStepsReport }
{}

/// What is written of a report before its end is known begins it.
pub fn steps_fronts_begin_reports()
    ensures { StepsFrontsBeginReports }
{}
