//! The line of a step that shows how many instructions the processor has executed.

ghost use Rattle.std.specs.Prelude.{◌≡◌, ◌≤◌, ◌++◌, [], codes};
ghost use Rattle.arrayvec.specs.ArrayVec.{array_vec_len};
ghost use Rattle.gpl_counts.specs.Counts.{count_text, counts_alone};

use crate::seen::Seen;
use crate::step_line::StepLine;
use report_lines::{Line, append, append_count};
use tms_step::Machine;

/// A line that shows the count of the machine after its step.
#[derive(Drop)]
pub struct Counts {
    line: Line,
}

impl Counts {
    /// An empty line.
    pub fn new() -> Self
        ensures { result.line.items ≡ [] }
    {
        Counts { line: Line::new() }
    }
}

impl StepLine for Counts {
    ghost shows = { counts_alone };

    ghost bytes = { λ s. s.line.items };

    fn begin(&mut self, front: &Line) {
        self.line.clear();
        append(&mut self.line, front.as_slice());
    }

    fn end(&mut self, seen: &mut Seen, machine: &Machine) {
        append_instructions(&mut self.line, machine.count());
        seen.keep(machine);
    }

    fn as_bytes(&self) -> &[u8] {
        self.line.as_slice()
    }
}

/// Ends a line by a number of instructions, and a line feed.
#[tactic(auto, using(std::proofs::Common::append_assoc))]
fn append_instructions(line: &mut Line, count: u64)
    requires { array_vec_len line.old ≤ 79 }
    ensures { line.new.items ≡ line.old.items ++ (count_text count ++ codes "\n") }
{
    append(line, b" count ");
    append_count(line, count);
    line.push(b'\n');
}
