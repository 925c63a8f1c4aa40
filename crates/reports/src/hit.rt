//! The line that says what was found.

ghost use Rattle.std.specs.Prelude.{◌≡◌, ◌≤◌, ◌+◌, ◌++◌};
ghost use Rattle.arrayvec.specs.ArrayVec.{array_vec_len};
ghost use Rattle.report_defs.specs.Watching as spec;

use asm_text::byte_digits;
use report_lines::{Line, append, append_count, append_word};

/// The line of a hit: the number of the step, the address of its instruction, the number of the item, and what
/// changed, or `pc`.
#[tactic(auto, using(std::proofs::Common::append_assoc))]
pub(crate) fn hit_line(step: u32, from: u16, item: u8, change: Option<(u16, u8)>) -> Line
    ensures { result.items ≡ spec.hit_line step from item change }
{
    let mut line = Line::new();
    append(&mut line, b"hit ");
    append_count(&mut line, u64::from(step));
    append(&mut line, b" at ");
    append_word(&mut line, from);
    append(&mut line, b" item ");
    append_count(&mut line, u64::from(item));
    line.push(b' ');
    append_change(&mut line, change);
    line.push(b'\n');
    line
}

/// Appends what changed: its address and the byte that is there now; or `pc`.
#[tactic(auto, using(std::proofs::Common::append_assoc))]
fn append_change(line: &mut Line, change: Option<(u16, u8)>)
    requires { array_vec_len line.old + 8 ≤ 192 }
    ensures text { line.new.items ≡ line.old.items ++ spec.change_text change }
    ensures len { array_vec_len line.new ≤ array_vec_len line.old + 8 }
{
    match change {
        Some((at, byte)) => {
            append_word(line, at);
            line.push(b'=');
            append(line, &byte_digits(byte));
        }
        None => append(line, b"pc"),
    }
}

/// The line of a run in which nothing was found.
#[tactic(auto, unfolding(report_defs::specs::Watching::no_hit_line))]
pub(crate) fn no_hit_line() -> &'static [u8]
    ensures { result.now ≡ spec.no_hit_line }
{
    b"no hit\n"
}
