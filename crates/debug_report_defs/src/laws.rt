//! Laws of the definitions. Each function does nothing, and its contract is the law.

ghost use Rattle.debug_report_defs.specs.Laws.{DebugFrontsBeginReports, GrunReportsAsRun, LinesGiveStates};
ghost use Rattle.debug_report_defs.specs.Laws.{OneDebugReport};
ghost use Rattle.debug_report_defs.specs.ListingLaws.{ListingsAreRead};
ghost use Rattle.debug_report_defs.specs.MachineLaws.{MachineLinesGiveStates};
ghost use Rattle.debug_report_defs.specs.SiblingLaws.{SiblingsReportAlike};

/// There is at most one report on each command, input and files.
#[tactic(auto, using(crate::proofs::ReportLaws::one_debug_report))]
pub fn one_debug_report()
    ensures { OneDebugReport }
{}

/// What is written before the end of a report is known begins the report.
#[tactic(auto, using(crate::proofs::ReportLaws::debug_fronts_begin_reports))]
pub fn debug_fronts_begin_reports()
    ensures { DebugFrontsBeginReports }
{}

/// `grun` has the reports of `run` of `ti_bench`, and no others.
#[tactic(auto, using(crate::proofs::ReportLaws::grun_reports_as_run))]
pub fn grun_reports_as_run()
    ensures { GrunReportsAsRun }
{}

/// `glist` and `list` refuse what `gasm` and `asm` of `ti_bench` refuse, by the same fault line. `gsteps` and `steps`
/// write lines and then what `run` and `exec` write.
#[tactic(auto, using(crate::proofs::SiblingLaws::siblings_report_alike))]
pub fn siblings_report_alike()
    ensures { SiblingsReportAlike }
{}

/// From the lines of `gsteps` alone their fronts and changes are read, and the changes lead from the first state of a
/// program to the state after each step.
#[tactic(auto, using(crate::proofs::GplLines::lines_give_states))]
pub fn lines_give_states()
    ensures { LinesGiveStates }
{}

/// From the lines of `steps` alone their fronts and changes are read, and the changes lead from the first memory of a
/// machine to the memory after each instruction.
#[tactic(auto, using(crate::proofs::MachineLines::machine_lines_give_states))]
pub fn machine_lines_give_states()
    ensures { MachineLinesGiveStates }
{}

/// From the lines of `glist` alone the image, the names and the texts are read, and the texts are again a source of the
/// same program.
#[tactic(auto, using(crate::proofs::ListedSources::listings_are_read))]
pub fn listings_are_read()
    ensures { ListingsAreRead }
{}
