//! The line of a step that shows all that changed.

ghost use Rattle.std.specs.Prelude.{◌≡◌, ◌≤◌, ◌+◌, ◌*◌, ◌++◌, [], length, codes, IfOk};
ghost use Rattle.interp_defs.specs.Match.{shown_by};
ghost use Rattle.report_defs.specs.Trace.{seen_state};
ghost use Rattle.change_defs.specs.Changes.{changes};
ghost use Rattle.change_defs.specs.Text as spec;
ghost use Rattle.gpl_counts.specs.Counts.{changes_alone};
ghost use Rattle.step_changes.specs.declared.line.TheConstants.{LONGEST};

use crate::seen::{Seen, visible_cells};
use crate::step_line::StepLine;
use change_defs::Part;
use report_lines::Line;
use std::alloc::{AllocError, Global};
use step_changes::{LongLine, append_part, video_registers};
use tms_step::Machine;

/// A line that shows all changes of its step.
#[derive(Drop)]
pub struct AllChanges {
    line: LongLine,
}

impl AllChanges {
    /// An empty line. The memory for the longest is taken here, and none later.
    /// A line is put together and not written in pieces: a write that fails would leave a part of a step, and a step
    /// would be several calls. Commas stand between changes, so that the text says where one ends.
    ///
    /// # Errors
    /// `AllocError` means out of memory.
    pub fn new(alloc: Global) -> Result<Self, AllocError>
        ensures { IfOk result (λ line. line.line ≡ []) }
    {
        Ok(AllChanges {
            line: LongLine::new(alloc)?,
        })
    }
}

impl StepLine for AllChanges {
    ghost shows = { changes_alone spec.all_changes_text };

    ghost bytes = { λ s. s.line };

    fn begin(&mut self, front: &Line) {
        self.line.clear();
        self.line.append(front.as_slice());
    }

    fn end(&mut self, seen: &mut Seen, machine: &Machine) {
        append_changes(&mut self.line, seen, machine);
    }

    fn as_bytes(&self) -> &[u8] {
        self.line.bytes()
    }
}

/// Ends the front of a step's line by all that has changed since, and a line feed; and keeps what is seen of the
/// machine now.
#[tactic(auto, unfolding(change_defs::specs::Text::step_text), using(std::proofs::Common::append_assoc))]
fn append_changes(line: &mut LongLine, seen: &mut Seen, machine: &Machine)
    requires { length line.old ≤ 79 }
    ensures text { line.new ≡ line.old
        ++ (spec.all_changes_text seen.old (seen_state (shown_by machine.now.cpu.memory)) ++ codes "\n") }
    ensures seen { seen.new ≡ seen_state (shown_by machine.now.cpu.memory) }
{
    append_kept(line, Part::Cells, &mut seen.cells, visible_cells(machine));
    append_kept(
        line,
        Part::Video,
        &mut seen.vdp,
        machine.bus().vdp().memory(),
    );
    append_kept(
        line,
        Part::Registers,
        &mut seen.registers,
        &video_registers(machine.bus().vdp()),
    );
    line.append(b"\n");
}

/// Appends all that changed of a part, and keeps it.
fn append_kept(line: &mut LongLine, part: Part, kept: &mut [u8], now: &[u8])
    requires before { length kept.old ≡ spec.size_of part }
    requires now { length now.now ≡ spec.size_of part }
    requires room { length line.old + 16 * spec.size_of part ≤ LONGEST }
    ensures text { line.new ≡ line.old ++ spec.part_text part (changes kept.old now.now) }
    ensures size { length line.new ≤ length line.old + 16 * spec.size_of part }
    ensures kept { kept.new ≡ now.now }
{
    if append_part(line, part, kept, now) {
        kept.copy_from_slice(now);
    }
}
