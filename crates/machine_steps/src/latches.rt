//! What changed of what the ports hold beside memory.

ghost use Rattle.std.specs.Prelude.{◌≡◌, ◌≤◌, ◌+◌, ◌++◌, length, codes};
ghost use Rattle.arrayvec.specs.ArrayVec.{array_vec_len};
ghost use Rattle.source_defs.specs.Digits.{byte_digits, word_digits};
ghost use Rattle.machine_change_defs.specs.Changes as changes;
ghost use Rattle.machine_change_defs.specs.Text as spec;

use asm_text::{byte_digits, word_digits};
use machine_change_defs::Latches;
use report_lines::{Line, append};

/// What changed of what the ports hold.
#[tactic(auto, using(std::proofs::Common::append_assoc), unfolding(machine_change_defs::specs::Text::latches_text))]
pub(crate) fn latches_text(old: &Latches, new: &Latches) -> Line
    ensures { result.items ≡ spec.latches_text (changes.latch_changes old.now new.now) }
{
    let mut line = Line::new();
    append_new_word(&mut line, b"VA", old.video_address, new.video_address);
    append_new_byte(&mut line, b"VF", old.video_fetched, new.video_fetched);
    append_new_held(&mut line, old.video_held, new.video_held);
    append_new_word(&mut line, b"GA", old.grom_counter, new.grom_counter);
    append_new_byte(&mut line, b"GF", old.grom_fetched, new.grom_fetched);
    append_new_mark(&mut line, old.grom_half_written, new.grom_half_written);
    line
}

/// Appends a word by its name, if it is new.
#[tactic(auto, using(std::proofs::Common::append_assoc))]
fn append_new_word(line: &mut Line, name: &[u8], old: u16, new: u16)
    requires name { length name.now ≡ 2 }
    requires room { array_vec_len line.old + 8 ≤ 192 }
    ensures bytes { line.new.items ≡ line.old.items
        ++ spec.latch_text name.now word_digits (changes.number_if_changed old new) }
    ensures len { array_vec_len line.new ≤ array_vec_len line.old + 8 }
{
    if old != new {
        append_name(line, name);
        append(line, &word_digits(new));
    }
}

/// Appends a byte by its name, if it is new.
#[tactic(auto, using(std::proofs::Common::append_assoc))]
fn append_new_byte(line: &mut Line, name: &[u8], old: u8, new: u8)
    requires name { length name.now ≡ 2 }
    requires room { array_vec_len line.old + 8 ≤ 192 }
    ensures bytes { line.new.items ≡ line.old.items
        ++ spec.latch_text name.now byte_digits (changes.number_if_changed old new) }
    ensures len { array_vec_len line.new ≤ array_vec_len line.old + 8 }
{
    if old != new {
        append_name(line, name);
        append(line, &byte_digits(new));
    }
}

/// Appends the first byte of an address pair, or that none is held, if that is new.
#[tactic(auto, using(std::proofs::Common::append_assoc))]
fn append_new_held(line: &mut Line, old: Option<u8>, new: Option<u8>)
    requires room { array_vec_len line.old + 8 ≤ 192 }
    ensures bytes { line.new.items ≡ line.old.items
        ++ spec.latch_text (codes "VH") spec.held_text (changes.held_if_changed old new) }
    ensures len { array_vec_len line.new ≤ array_vec_len line.old + 8 }
{
    match (old, new) {
        (None, None) => {}
        (Some(_), None) => append(line, b" VH=-"),
        (None, Some(byte)) => append_held(line, byte),
        (Some(old), Some(new)) => append_new_byte(line, b"VH", old, new),
    }
}

/// Appends the first byte of an address pair.
#[tactic(auto, using(std::proofs::Common::append_assoc))]
fn append_held(line: &mut Line, byte: u8)
    requires room { array_vec_len line.old + 8 ≤ 192 }
    ensures bytes { line.new.items ≡ line.old.items ++ (codes " " ++ (codes "VH" ++ (codes "=" ++ byte_digits byte))) }
    ensures len { array_vec_len line.new ≤ array_vec_len line.old + 8 }
{
    append_name(line, b"VH");
    append(line, &byte_digits(byte));
}

/// Appends whether one half of an address was written, if that is new.
#[tactic(auto, using(std::proofs::Common::append_assoc))]
fn append_new_mark(line: &mut Line, old: bool, new: bool)
    requires room { array_vec_len line.old + 8 ≤ 192 }
    ensures bytes { line.new.items ≡ line.old.items
        ++ spec.latch_text (codes "GH") spec.mark_text (changes.mark_if_changed old new) }
    ensures len { array_vec_len line.new ≤ array_vec_len line.old + 8 }
{
    match (old, new) {
        (false, true) => append(line, b" GH=1"),
        (true, false) => append(line, b" GH=0"),
        (false, false) | (true, true) => {}
    }
}

/// Appends a blank, a name and an equals sign.
#[tactic(auto, using(std::proofs::Common::append_assoc))]
fn append_name(line: &mut Line, name: &[u8])
    requires name { length name.now ≡ 2 }
    requires room { array_vec_len line.old + 4 ≤ 192 }
    ensures bytes { line.new.items ≡ line.old.items ++ (codes " " ++ (name.now ++ codes "=")) }
    ensures len { array_vec_len line.new ≡ array_vec_len line.old + 4 }
{
    line.push(b' ');
    append(line, name);
    line.push(b'=');
}
