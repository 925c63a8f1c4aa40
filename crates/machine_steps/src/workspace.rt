//! The registers of a workspace that changed.

ghost use Rattle.std.specs.Prelude.{◌≡◌, ◌≤◌, ◌<◌, ◌+◌, ◌*◌, ◌++◌, length, take, drop, slice_range, IfSome};
ghost use Rattle.std.specs.List.{flat_map};
ghost use Rattle.arrayvec.specs.ArrayVec.{array_vec_len};
ghost use Rattle.step_changes.specs.declared.line.TheConstants.{LONGEST};
ghost use Rattle.machine_change_defs.specs.Seen as spec;
ghost use Rattle.machine_change_defs.specs.Changes as changes;
ghost use Rattle.machine_change_defs.specs.Text.{register_text};

use asm_text::byte_digits;
use machine_change_defs::Area;
use report_lines::{Line, append, append_count};
use step_changes::LongLine;

/// Where the bytes of a workspace stand that lies wholly in memory that can be shown.
pub(crate) fn workspace_place(wp: u16) -> Option<(Area, usize)>
    ensures place { result ≡ spec.workspace_place wp }
    ensures within { IfSome result (λ place. place.1 + 32 ≤ spec.size_of place.0) }
{
    if wp >= 0x8300 && wp <= 0x83E0 {
        Some((Area::Scratchpad, usize::from(wp - 0x8300)))
    } else if wp >= 0x2000 && wp <= 0x3FE0 {
        Some((Area::LowExpansion, usize::from(wp - 0x2000)))
    } else if wp >= 0xA000 && wp <= 0xFFE0 {
        Some((Area::HighExpansion, usize::from(wp - 0xA000)))
    } else {
        None
    }
}

/// Appends the registers that changed of the workspace at a place, and keeps what it holds now.
pub(crate) fn append_registers(line: &mut LongLine, kept: &mut [u8], now: &[u8], at: usize)
    requires size { length kept.old ≡ length now.now }
    requires within { at + 32 ≤ length now.now }
    requires room { length line.old + 16 * 47 ≤ LONGEST }
    ensures text { line.new ≡ line.old ++ flat_map register_text
        (changes.register_changes (slice_range kept.old at (at + 32)) (slice_range now.now at (at + 32))) }
    ensures size { length line.new ≤ length line.old + 16 * 47 }
    ensures kept { kept.new ≡ spec.replaced at (slice_range now.now at (at + 32)) kept.old }
{
    append_changed(line, &kept[at..at + 32], &now[at..at + 32]);
    keep_workspace(kept, &now[at..at + 32], at);
}

/// Puts the bytes of a workspace over those at a place.
fn keep_workspace(kept: &mut [u8], workspace: &[u8], at: usize)
    requires size { length workspace.now ≡ 32 }
    requires within { at + 32 ≤ length kept.old }
    ensures { kept.new ≡ spec.replaced at workspace.now kept.old }
{
    kept[at..at + 32].copy_from_slice(workspace);
}

/// Appends the registers that changed, by the bytes that a workspace had and has.
fn append_changed(line: &mut LongLine, before: &[u8], now: &[u8])
    requires before { length before.now ≡ 32 }
    requires now { length now.now ≡ 32 }
    requires room { length line.old + 16 * 47 ≤ LONGEST }
    ensures text { line.new ≡ line.old ++ flat_map register_text (changes.register_changes before.now now.now) }
    ensures size { length line.new ≤ length line.old + 16 * 47 }
{
    for number in 0..16 {
        append_register(line, before, now, number);
    }
}

/// Appends the register with a number, if it changed.
fn append_register(line: &mut LongLine, before: &[u8], now: &[u8], number: usize)
    requires before { length before.now ≡ 32 }
    requires now { length now.now ≡ 32 }
    requires number { number < 16 }
    requires room { length line.old + 47 ≤ LONGEST }
    ensures text { line.new ≡ line.old ++ flat_map register_text (changes.register_change before.now now.now number) }
    ensures size { length line.new ≤ length line.old + 47 }
{
    let high = now[2 * number];
    let low = now[2 * number + 1];
    if before[2 * number] != high || before[2 * number + 1] != low {
        line.append(register_text(number, high, low).as_slice());
    }
}

/// The text of a register with a number and the two bytes of its new word.
#[tactic(auto, using(std::proofs::Common::append_assoc), unfolding(machine_change_defs::specs::Text::register_text))]
fn register_text(number: usize, high: u8, low: u8) -> Line
    requires { number < 16 }
    ensures text { result.items ≡ register_text (record { number = number; high = high; low = low }) }
    ensures size { array_vec_len result ≤ 47 }
{
    let mut line = Line::new();
    append(&mut line, b" R");
    append_count(&mut line, number as u64);
    line.push(b'=');
    append(&mut line, &byte_digits(high));
    append(&mut line, &byte_digits(low));
    line
}
