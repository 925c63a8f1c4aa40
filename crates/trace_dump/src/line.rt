//! The front of the line of a step.

ghost use Rattle.std.specs.Prelude.{◌≡◌, ◌≤◌, ◌+◌, ◌++◌, None};
ghost use Rattle.arrayvec.specs.ArrayVec.{array_vec_len};
ghost use Rattle.source_defs.specs.Digits.{right_in};
ghost use Rattle.gpl_counts.specs.Counts.{most_shown_steps};
ghost use Rattle.gpl_run.specs.Sessions.{gpl_state_of};
ghost use Rattle.report_defs.specs.Trace as spec;

use crate::state::append_state;
use arrayvec::ArrayString;
use gpl_disasm::push_standing;
use gpl_run::Session;
use report_lines::{Line, append, append_right};

/// The front of the line of the step that a running program is about to make: its number, the state before it, and the
/// text of the instruction there. It has at most 79 characters.
#[tactic(auto, using(std::proofs::Common::append_assoc), unfolding(report_defs::specs::Trace::step_front))]
pub fn trace_line(session: &Session, number: u32) -> Line
    requires running { session.now.ended ≡ None }
    requires number { number ≤ most_shown_steps }
    ensures text { result.items ≡ spec.step_front number (gpl_state_of session.now) }
    ensures size { array_vec_len result ≤ 79 }
{
    let mut line = number_line(number);
    line.push(b' ');
    append_state(&mut line, session);
    line.push(b' ');
    let mut text = ArrayString::<52>::new();
    push_standing(
        &mut text,
        session.machine().bus().grom().image(),
        session.pc(),
    );
    append(&mut line, text.as_bytes());
    line
}

/// A line of the number of a step alone, right in six columns if it has no more digits.
#[tactic(auto, using(crate::proofs::Decimals::eight_columns))]
fn number_line(number: u32) -> Line
    requires { number ≤ most_shown_steps }
    ensures text { result.items ≡ right_in 6 number }
    ensures size { array_vec_len result ≤ 8 }
{
    let mut line = Line::new();
    append_right(&mut line, 6, number);
    line
}
