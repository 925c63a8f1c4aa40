//! The lines of a GPL program: the state that it is in, and how it ended.

ghost use Rattle.std.specs.Prelude.{◌≡◌, ◌<◌, ◌≤◌, ◌+◌, ◌++◌, length, slice_index};
ghost use Rattle.arrayvec.specs.ArrayVec.{array_vec_len};
ghost use Rattle.source_defs.specs.Digits.{byte_digits};
ghost use Rattle.gpl_step_defs.specs.declared.cells.TheConstants.{VISIBLE_CELLS};
ghost use Rattle.gpl_run.specs.Sessions.{gpl_state_of};
ghost use Rattle.report_defs.specs.Program as spec;

use asm_text::byte_digits;
use gpl_run::Session;
use gpl_step_defs::{RETURN_STACK, Reason, STATUS, VALUE_STACK};
use report_lines::{Line, append, append_word, line_of};

/// The line of the state that a program is in: the address of its next code byte, or of the one that ended it, and
/// its status and the pointers of its two stacks.
#[tactic(auto, using(std::proofs::Common::append_assoc), unfolding(report_defs::specs::Program::state_line))]
pub fn state_line(session: &Session) -> Line
    ensures { result.items ≡ spec.state_line (gpl_state_of session.now) }
{
    let mut line = line_of(b"gpl ");
    append_state(&mut line, session);
    line.push(b'\n');
    line
}

/// Appends the address of the next code byte, or of the one that ended the program, and its status and the pointers of
/// its two stacks.
#[tactic(auto, using(std::proofs::Common::append_assoc), unfolding(report_defs::specs::Program::state_text))]
pub(crate) fn append_state(line: &mut Line, session: &Session)
    requires { array_vec_len line.old + 17 ≤ 192 }
    ensures text { line.new.items ≡ line.old.items ++ spec.state_text (gpl_state_of session.now) }
    ensures size { array_vec_len line.new ≡ array_vec_len line.old + 17 }
{
    append_word(line, session.pc());
    append_cell(line, b" S", visible_cell(session, STATUS));
    append_cell(line, b" D", visible_cell(session, VALUE_STACK));
    append_cell(line, b" R", visible_cell(session, RETURN_STACK));
}

/// The visible cell with a number.
fn visible_cell(session: &Session, cell: u8) -> u8
    requires { cell < VISIBLE_CELLS }
    ensures { result ≡ slice_index (gpl_state_of session.now).cells cell }
{
    session.machine().bus().cell(cell)
}

/// The line of a program that has ended, for a reason and at an address.
#[tactic(auto, using(std::proofs::Common::append_assoc), unfolding(report_defs::specs::Program::stop_line))]
pub fn stop_line(reason: Reason, address: u16) -> Line
    ensures { result.items ≡ spec.stop_line reason address }
{
    let mut line = line_of(stop_text(reason));
    append_word(&mut line, address);
    line.push(b'\n');
    line
}

/// The text of a reason, in front of the address.
fn stop_text(reason: Reason) -> &'static [u8]
    ensures text { result.now ≡ spec.stop_text reason }
    ensures size { length result.now ≤ 10 }
{
    match reason {
        Reason::Exit => b"exit at ",
        Reason::Opcode => b"stop 1 at ",
        Reason::Cell => b"stop 2 at ",
        Reason::Stack => b"stop 3 at ",
        Reason::Length => b"stop 4 at ",
        Reason::Register => b"stop 5 at ",
    }
}

/// Appends a cell by its two hexadecimal digits, after a label.
#[tactic(auto, using(std::proofs::Common::append_assoc))]
fn append_cell(line: &mut Line, label: &[u8], byte: u8)
    requires { array_vec_len line.old + length label.now + 2 ≤ 192 }
    ensures text { line.new.items ≡ line.old.items ++ (label.now ++ byte_digits byte) }
    ensures size { array_vec_len line.new ≡ array_vec_len line.old + length label.now + 2 }
{
    append(line, label);
    append(line, &byte_digits(byte));
}
