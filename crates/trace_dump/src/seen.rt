//! What was seen of a program, and what has changed since.

ghost use Rattle.std.specs.Prelude.{◌≡◌, ◌≤◌, ◌<◌, ◌+◌, ◌++◌, length, codes, IfOk};
ghost use Rattle.arrayvec.specs.ArrayVec.{array_vec_len};
ghost use Rattle.interp_defs.specs.Match.{shown_by};
ghost use Rattle.report_defs.specs.Trace as spec;
ghost use Rattle.change_defs.specs.Text.{size_of};
ghost use Rattle.trace_dump.specs.FirstChanges.{part_label, part_place, first_text};

use asm_text::byte_digits;
use change_defs::Part;
use gpl_step_defs::VISIBLE_CELLS;
use lane_scan::{count_differences, first_difference};
use memory_basics::zeros;
use report_lines::{Line, append, append_count, append_word};
use std::alloc::{AllocError, Global};
use std::marker::Model;
use step_changes::video_registers;
use tms_step::Machine;

/// How many cells a GPL program sees.
const CELLS: usize = VISIBLE_CELLS as usize;

/// How many bytes the video memory has.
const VIDEO_SIZE: usize = 16384;

/// What was seen of a machine that runs a GPL program: the visible cells, and the memory and the registers of the video
/// processor.
#[derive(Drop)]
pub struct Seen {
    pub(crate) cells: [u8; CELLS],
    pub(crate) vdp: Vec<u8>,
    pub(crate) registers: [u8; 8],
}

impl Model for Seen {
    ghost use Rattle.std.specs.Prelude.{◌≡◌, length};
    ghost use Rattle.report_defs.specs.Trace.{SeenState};
    ghost use Rattle.trace_dump.specs.declared.seen.TheConstants.{VIDEO_SIZE};

    ghost Value = { SeenState };

    ghost view = { λ s. record { cells = s.cells; vdp = s.vdp.items; registers = s.registers } };

    ghost invariant = { λ s. length s.vdp.items ≡ VIDEO_SIZE };
}

impl Seen {
    /// Keeps what is seen of a machine.
    ///
    /// # Errors
    /// `AllocError` comes if memory runs out.
    pub fn new(alloc: Global, machine: &Machine) -> Result<Seen, AllocError>
        ensures { IfOk result (λ seen. seen ≡ spec.seen_state (shown_by machine.now.cpu.memory)) }
    {
        let mut vdp = zeros(alloc, VIDEO_SIZE)?;
        vdp.copy_from_slice(machine.bus().vdp().memory());
        let mut cells = [0; CELLS];
        cells.copy_from_slice(visible_cells(machine));
        Ok(Seen {
            cells,
            vdp,
            registers: video_registers(machine.bus().vdp()),
        })
    }

    /// Keeps what is seen of a machine now.
    pub(crate) fn keep(&mut self, machine: &Machine)
        ensures { self.new ≡ spec.seen_state (shown_by machine.now.cpu.memory) }
    {
        self.cells.copy_from_slice(visible_cells(machine));
        self.vdp.copy_from_slice(machine.bus().vdp().memory());
        self.registers = video_registers(machine.bus().vdp());
    }
}

/// Ends the front of a step's line by what has changed since, and a line feed; and keeps what is seen of the machine
/// now. Of the visible cells, the video memory and its registers the line shows how many have changed, the first of
/// them, and what it is now.
#[tactic(auto, using(std::proofs::Common::append_assoc), unfolding(report_defs::specs::Trace::changes_text))]
pub fn changes(line: &mut Line, seen: &mut Seen, machine: &Machine)
    requires { array_vec_len line.old ≤ 79 }
    ensures text { line.new.items ≡ line.old.items
        ++ (spec.changes_text seen.old (spec.seen_state (shown_by machine.now.cpu.memory)) ++ codes "\n") }
    ensures seen { seen.new ≡ spec.seen_state (shown_by machine.now.cpu.memory) }
{
    append_first(line, Part::Cells, &mut seen.cells, visible_cells(machine));
    append_first(
        line,
        Part::Video,
        &mut seen.vdp,
        machine.bus().vdp().memory(),
    );
    append_first(
        line,
        Part::Registers,
        &mut seen.registers,
        &video_registers(machine.bus().vdp()),
    );
    line.push(b'\n');
}

/// The cells of a machine that a GPL program sees.
pub(crate) fn visible_cells(machine: &Machine) -> &[u8]
    ensures cells { result.now ≡ (shown_by machine.now.cpu.memory).cells }
    ensures size { length result.now ≡ CELLS }
{
    let pad = machine.bus().pad();
    &pad[..CELLS]
}

/// Appends how many bytes of a part have changed and the first of them, and keeps the part.
#[tactic(auto, using(std::proofs::Common::append_assoc), unfolding(report_defs::specs::Trace::changed_text))]
fn append_first(line: &mut Line, part: Part, kept: &mut [u8], now: &[u8])
    requires kept { length kept.old ≡ size_of part }
    requires now { length now.now ≡ size_of part }
    requires room { array_vec_len line.old + 31 ≤ 192 }
    ensures text { line.new.items ≡ line.old.items ++ first_text part kept.old now.now }
    ensures size { array_vec_len line.new ≤ array_vec_len line.old + 31 }
    ensures kept { kept.new ≡ now.now }
{
    let Some(at) = first_difference(kept, now) else {
        return;
    };
    append(line, label(part));
    append_count(line, count_differences(kept, now) as u64);
    line.push(b' ');
    append_place(line, part, at);
    line.push(b'=');
    append(line, &byte_digits(now[at]));
    kept.copy_from_slice(now);
}

/// What the changes of a part begin with.
fn label(part: Part) -> &'static [u8]
    ensures text { result.now ≡ part_label part }
    ensures size { length result.now ≡ 2 }
{
    match part {
        Part::Cells => b" C",
        Part::Video => b" V",
        Part::Registers => b" W",
    }
}

/// Appends a place of a part.
fn append_place(line: &mut Line, part: Part, at: usize)
    requires at { at < size_of part }
    requires room { array_vec_len line.old + 5 ≤ 192 }
    ensures text { line.new.items ≡ line.old.items ++ part_place part at }
    ensures size { array_vec_len line.new ≤ array_vec_len line.old + 5 }
{
    match part {
        Part::Cells => append_word(line, 0x8300 + at as u16),
        Part::Video => append_word(line, at as u16),
        Part::Registers => line.push(b'0' + at as u8),
    }
}
