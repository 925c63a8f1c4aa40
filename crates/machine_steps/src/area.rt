//! The changes of an area, appended to a line.

ghost use Rattle.std.specs.Prelude.{◌≡◌, ◌≤◌, ◌<◌, ◌+◌, ◌*◌, false, ◌++◌, length, codes};
ghost use Rattle.arrayvec.specs.ArrayVec.{array_vec_len};
ghost use Rattle.change_defs.specs.Changes.{changes};
ghost use Rattle.change_defs.specs.Text.{change_text};
ghost use Rattle.step_changes.specs.declared.line.TheConstants.{LONGEST};
ghost use Rattle.machine_change_defs.specs.Seen.{size_of};
ghost use Rattle.machine_change_defs.specs.Text as spec;

use machine_change_defs::Area;
use report_lines::{Line, append_word};
use step_changes::{LongLine, append_repeated, next_difference, stretch};

/// Appends all that changed of an area, and keeps it.
pub(crate) fn append_kept(line: &mut LongLine, area: Area, kept: &mut [u8], now: &[u8])
    requires before { length kept.old ≡ size_of area }
    requires now { length now.now ≡ size_of area }
    requires room { length line.old + 16 * size_of area ≤ LONGEST }
    ensures text { line.new ≡ line.old ++ spec.area_text area (changes kept.old now.now) }
    ensures size { length line.new ≤ length line.old + 16 * size_of area }
    ensures kept { kept.new ≡ now.now }
{
    if append_area(line, area, kept, now) {
        kept.copy_from_slice(now);
    }
}

/// Appends all that changed of an area, and returns whether anything did.
#[tactic(auto, unfolding(machine_change_defs::specs::Text::area_text))]
fn append_area(line: &mut LongLine, area: Area, before: &[u8], now: &[u8]) -> bool
    requires before { length before.now ≡ size_of area }
    requires now { length now.now ≡ size_of area }
    requires room { length line.old + 16 * size_of area ≤ LONGEST }
    ensures text { line.new ≡ line.old ++ spec.area_text area (changes before.now now.now) }
    ensures size { length line.new ≤ length line.old + 16 * size_of area }
    ensures same { result ≡ false → before.now ≡ now.now }
{
    let mut at = 0;
    while let Some(from) = next_difference(before, now, at) {
        let count = stretch(before, now, from);
        let text = change_text(area, at, from, now[from], count);
        line.append(text.as_slice());
        at = from + count;
    }
    at != 0
}

/// The text of a change, of which the one before ended at a place.
#[tactic(auto, using(std::proofs::Common::append_assoc), unfolding(change_defs::specs::Text::change_text))]
fn change_text(area: Area, end: usize, at: usize, byte: u8, count: usize) -> Line
    requires at { at < size_of area }
    requires count { count ≤ 24576 }
    ensures text { result.items ≡ change_text (spec.place_text area) end (record { at = at; byte = byte; count = count }) }
    ensures size { array_vec_len result ≤ 16 }
{
    let mut line = Line::new();
    if at == end && end != 0 {
        line.push(b',');
    } else {
        append_place(&mut line, area, at);
    }
    append_repeated(&mut line, byte, count);
    line
}

/// Appends a blank, a place of an area and an equals sign.
#[tactic(auto, using(std::proofs::Common::append_assoc))]
fn append_place(line: &mut Line, area: Area, at: usize)
    requires at { at < size_of area }
    requires room { array_vec_len line.old + 8 ≤ 192 }
    ensures bytes { line.new.items ≡ line.old.items ++ (codes " " ++ (spec.place_text area at ++ codes "=")) }
    ensures len { array_vec_len line.new ≤ array_vec_len line.old + 8 }
{
    line.push(b' ');
    match area {
        Area::Scratchpad => append_word(line, 0x8300 + at as u16),
        Area::LowExpansion => append_word(line, 0x2000 + at as u16),
        Area::HighExpansion => append_word(line, 0xA000 + at as u16),
        Area::Video => {
            line.push(b'V');
            append_word(line, at as u16);
        }
        Area::Registers => {
            line.push(b'W');
            line.push(b'0' + at as u8);
        }
    }
    line.push(b'=');
}
