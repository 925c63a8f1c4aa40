//! The line of a step that shows how many bytes changed, and the first of them.

ghost use Rattle.std.specs.Prelude.{◌≡◌, []};
ghost use Rattle.report_defs.specs.Trace as spec;
ghost use Rattle.gpl_counts.specs.Counts.{changes_alone};

use crate::seen::{Seen, changes};
use crate::step_line::StepLine;
use report_lines::{Line, append};
use tms_step::Machine;

/// A line that shows of the cells, the video memory and its registers the first change of its step.
#[derive(Drop)]
pub struct FirstChanges {
    line: Line,
}

impl FirstChanges {
    /// An empty line.
    pub fn new() -> Self
        ensures { result.line.items ≡ [] }
    {
        FirstChanges { line: Line::new() }
    }
}

impl StepLine for FirstChanges {
    ghost shows = { changes_alone spec.changes_text };

    ghost bytes = { λ s. s.line.items };

    fn begin(&mut self, front: &Line) {
        self.line.clear();
        append(&mut self.line, front.as_slice());
    }

    fn end(&mut self, seen: &mut Seen, machine: &Machine) {
        changes(&mut self.line, seen, machine);
    }

    fn as_bytes(&self) -> &[u8] {
        self.line.as_slice()
    }
}
