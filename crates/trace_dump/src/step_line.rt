//! The line of a step, by how it shows the step.

ghost use Rattle.std.specs.Prelude.{◌≡◌, ◌≤◌, ◌++◌, List, ℕ, length, codes};
ghost use Rattle.arrayvec.specs.ArrayVec.{array_vec_len};
ghost use Rattle.interp_defs.specs.Match.{shown_by};
ghost use Rattle.report_defs.specs.Trace.{seen_state};
ghost use Rattle.gpl_counts.specs.Counts.{ShowsStep};

use crate::seen::Seen;
use report_lines::Line;
use tms_step::Machine;

/// The line of a step, which is written in two parts. Neither takes memory.
pub trait StepLine {
    /// How it shows a step.
    ghost shows: { ShowsStep };

    /// The bytes of the line.
    ghost bytes: { Self → List ℕ };

    /// Makes the line the front of a step's line.
    fn begin(&mut self, front: &Line)
        requires { array_vec_len front.now ≤ 79 }
        ensures { bytes self.new ≡ front.now.items };

    /// Ends the front of a step's line by what is shown of the step, and a line feed; and keeps what is seen of the
    /// machine now.
    fn end(&mut self, seen: &mut Seen, machine: &Machine)
        requires { length (bytes self.old) ≤ 79 }
        ensures text { bytes self.new ≡ bytes self.old
            ++ (shows seen.old (seen_state (shown_by machine.now.cpu.memory)) machine.now.count ++ codes "\n") }
        ensures seen { seen.new ≡ seen_state (shown_by machine.now.cpu.memory) };

    /// The bytes of the line.
    fn as_bytes(&self) -> &[u8]
        ensures { result.now ≡ bytes self.now };
}
