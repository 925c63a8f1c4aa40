//! Laws of the definitions. Each function does nothing, and its contract is the law.

ghost use Rattle.gpl_counts.specs.Laws.{CountsAreBounded, CountsAreInstructions, OneReportOfCounts};

/// The count of the machine after any number of steps is the number of instructions that lead to it from boot, and the
/// machine is the one that a run of as many steps leaves.
#[tactic(auto, using(crate::proofs::Bounds::counts_are_instructions))]
pub fn counts_are_instructions()
    ensures { CountsAreInstructions }
{}

/// The count of the machine that is left has a bound by the number of the steps alone.
#[tactic(auto, using(crate::proofs::Bounds::counts_are_bounded))]
pub fn counts_are_bounded()
    ensures { CountsAreBounded }
{}

/// There is at most one report of counts on an image with an entry.
#[tactic(auto, using(crate::proofs::OneCounts::one_report_of_counts))]
pub fn one_report_of_counts()
    ensures { OneReportOfCounts }
{}
