//! All that an instruction changed, appended to its line.

ghost use Rattle.std.specs.Prelude.{◌≡◌, ◌≤◌, ◌+◌, ◌*◌, ◌++◌, length, codes, Some};
ghost use Rattle.std.specs.List.{flat_map};
ghost use Rattle.step_changes.specs.declared.line.TheConstants.{LONGEST};
ghost use Rattle.machine_change_defs.specs.Seen as spec;
ghost use Rattle.machine_change_defs.specs.Changes as changes;
ghost use Rattle.machine_change_defs.specs.Text as text;
ghost use Rattle.machine_steps.specs.Reach.{Stays};

use crate::area::append_kept;
use crate::latches::latches_text;
use crate::reach::Reach;
use crate::seen::{Seen, latches_of};
use crate::workspace::{append_registers, workspace_place};
use console_bus::Bus;
use machine_change_defs::Area;
use step_changes::{LongLine, video_registers};

/// Ends the front of an instruction's line by all that changed since what was seen, and a line feed; and keeps what is
/// seen now. The workspace is the one of the machine before the instruction, which reaches no farther than stated.
pub(crate) fn append_changes(line: &mut LongLine, reach: Reach, wp: u16, seen: &mut Seen, bus: &Bus)
    requires room { length line.old ≤ 192 }
    requires stays { Stays reach seen.old (spec.seen_memory bus.now) }
    ensures text { line.new ≡ line.old
        ++ (text.changes_text (changes.memory_changes wp seen.old (spec.seen_memory bus.now)) ++ codes "\n") }
    ensures seen { seen.new ≡ spec.seen_memory bus.now }
{
    append_reached(line, reach, wp, seen, bus);
    line.append(b"\n");
}

/// Appends all that changed by an instruction that reaches so far, and keeps it.
fn append_reached(line: &mut LongLine, reach: Reach, wp: u16, seen: &mut Seen, bus: &Bus)
    requires room { length line.old ≤ 192 }
    requires stays { Stays reach seen.old (spec.seen_memory bus.now) }
    ensures text { line.new ≡ line.old
        ++ text.changes_text (changes.memory_changes wp seen.old (spec.seen_memory bus.now)) }
    ensures size { length line.new + 1 ≤ LONGEST }
    ensures seen { seen.new ≡ spec.seen_memory bus.now }
{
    match reach {
        Reach::Nothing => {}
        Reach::Words => append_words(line, wp, seen, bus),
        Reach::Bytes => append_all(line, wp, seen, bus),
    }
}

/// Appends all that changed by an instruction on words, and keeps it.
#[tactic(auto, unfolding(machine_change_defs::specs::Text::changes_text), using(std::proofs::Common::append_assoc))]
fn append_words(line: &mut LongLine, wp: u16, seen: &mut Seen, bus: &Bus)
    requires room { length line.old ≤ 192 }
    requires stays { Stays Reach.Words seen.old (spec.seen_memory bus.now) }
    ensures text { line.new ≡ line.old
        ++ text.changes_text (changes.memory_changes wp seen.old (spec.seen_memory bus.now)) }
    ensures size { length line.new + 1 ≤ LONGEST }
    ensures seen { seen.new ≡ spec.seen_memory bus.now }
{
    append_workspace(line, wp, seen, bus);
    append_bytes(line, seen, bus);
}

/// Appends all that changed, and keeps it.
#[tactic(auto, unfolding(machine_change_defs::specs::Text::changes_text), using(std::proofs::Common::append_assoc))]
fn append_all(line: &mut LongLine, wp: u16, seen: &mut Seen, bus: &Bus)
    requires room { length line.old ≤ 192 }
    ensures text { line.new ≡ line.old
        ++ text.changes_text (changes.memory_changes wp seen.old (spec.seen_memory bus.now)) }
    ensures size { length line.new + 1 ≤ LONGEST }
    ensures seen { seen.new ≡ spec.seen_memory bus.now }
{
    append_workspace(line, wp, seen, bus);
    append_others(line, seen, bus);
}

/// Appends what changed of bytes and after the ports, and keeps it.
#[tactic(auto, using(std::proofs::Common::append_assoc))]
fn append_others(line: &mut LongLine, seen: &mut Seen, bus: &Bus)
    requires { length line.old ≤ 192 + 16 * 47 }
    ensures text { let made = changes.other_changes seen.old (spec.seen_memory bus.now) in
        line.new ≡ line.old ++ (text.bytes_text made ++ text.ports_text made) }
    ensures size { length line.new + 1 ≤ LONGEST }
    ensures seen { seen.new ≡ spec.seen_memory bus.now }
{
    append_bytes(line, seen, bus);
    append_ports(line, seen, bus);
}

/// Appends what changed of the bytes that the processor addresses, and keeps it.
#[tactic(auto, unfolding(machine_change_defs::specs::Text::bytes_text), using(std::proofs::Common::append_assoc))]
fn append_bytes(line: &mut LongLine, seen: &mut Seen, bus: &Bus)
    requires { length line.old ≤ 192 + 16 * 47 }
    ensures text { line.new ≡ line.old ++ text.bytes_text (changes.other_changes seen.old (spec.seen_memory bus.now)) }
    ensures size { length line.new ≤ length line.old + 16 * (256 + 8192 + 24576) }
    ensures seen { seen.new ≡ record (spec.seen_memory bus.now) {
      video = seen.old.video;
      registers = seen.old.registers;
      latches = seen.old.latches;
    } }
{
    append_kept(line, Area::Scratchpad, &mut seen.scratchpad, bus.pad());
    append_kept(
        line,
        Area::LowExpansion,
        &mut seen.low_expansion,
        bus.low_expansion(),
    );
    append_kept(
        line,
        Area::HighExpansion,
        &mut seen.high_expansion,
        bus.high_expansion(),
    );
}

/// Appends what changed after the ports, and keeps it.
#[tactic(auto, unfolding(machine_change_defs::specs::Text::ports_text), using(std::proofs::Common::append_assoc))]
fn append_ports(line: &mut LongLine, seen: &mut Seen, bus: &Bus)
    requires { length line.old + 16 * (16384 + 8) + 192 ≤ LONGEST }
    ensures text { line.new ≡ line.old ++ text.ports_text (changes.other_changes seen.old (spec.seen_memory bus.now)) }
    ensures size { length line.new ≤ length line.old + 16 * (16384 + 8) + 192 }
    ensures seen { seen.new ≡ record seen.old {
      video = bus.now.vdp.memory;
      registers = bus.now.vdp.registers;
      latches = spec.seen_latches bus.now;
    } }
{
    append_kept(line, Area::Video, &mut seen.video, bus.vdp().memory());
    append_kept(
        line,
        Area::Registers,
        &mut seen.registers,
        &video_registers(bus.vdp()),
    );
    append_latches(line, seen, bus);
}

/// Appends the registers that changed of the workspace at an address, and keeps what it holds now.
fn append_workspace(line: &mut LongLine, wp: u16, seen: &mut Seen, bus: &Bus)
    requires { length line.old ≤ 192 }
    ensures text { let place = spec.workspace_place wp in
        line.new ≡ line.old ++ flat_map text.register_text
        (changes.register_changes (spec.workspace_at place seen.old) (spec.workspace_at place (spec.seen_memory bus.now))) }
    ensures size { length line.new ≤ length line.old + 16 * 47 }
    ensures seen { let place = spec.workspace_place wp in
        seen.new ≡ spec.with_workspace place (spec.workspace_at place (spec.seen_memory bus.now)) seen.old }
{
    if let Some((area, at)) = workspace_place(wp) {
        append_workspace_at(line, area, at, seen, bus);
    }
}

/// Appends the registers that changed of the workspace at a place of an area, and keeps what it holds now.
fn append_workspace_at(line: &mut LongLine, area: Area, at: usize, seen: &mut Seen, bus: &Bus)
    requires within { at + 32 ≤ spec.size_of area }
    requires room { length line.old ≤ 192 }
    ensures text { let place = Some (area, at) in
        line.new ≡ line.old ++ flat_map text.register_text
        (changes.register_changes (spec.workspace_at place seen.old) (spec.workspace_at place (spec.seen_memory bus.now))) }
    ensures size { length line.new ≤ length line.old + 16 * 47 }
    ensures seen { let place = Some (area, at) in
        seen.new ≡ spec.with_workspace place (spec.workspace_at place (spec.seen_memory bus.now)) seen.old }
{
    match area {
        Area::Scratchpad => append_registers(line, &mut seen.scratchpad, bus.pad(), at),
        Area::LowExpansion => append_registers(
            line,
            &mut seen.low_expansion,
            bus.low_expansion(),
            at,
        ),
        Area::HighExpansion => {
            append_registers(line, &mut seen.high_expansion, bus.high_expansion(), at)
        }
        Area::Video => append_registers(line, &mut seen.video, bus.vdp().memory(), at),
        Area::Registers => {}
    }
}

/// Appends what changed of what the ports hold, and keeps it.
fn append_latches(line: &mut LongLine, seen: &mut Seen, bus: &Bus)
    requires { length line.old + 192 ≤ LONGEST }
    ensures text { line.new ≡ line.old ++ text.latches_text
        (changes.latch_changes seen.old.latches (spec.seen_latches bus.now)) }
    ensures size { length line.new ≤ length line.old + 192 }
    ensures seen { seen.new ≡ record seen.old { latches = spec.seen_latches bus.now } }
{
    let latches = latches_of(bus.vdp(), bus.grom());
    line.append(latches_text(&seen.latches, &latches).as_slice());
    seen.latches = latches;
}
