//! A line that may be long, and the changes of a part at its end.

ghost use Rattle.std.specs.Prelude.{◌≡◌, ◌≤◌, ◌+◌, ◌*◌, false, [], ◌++◌, length, IfOk};
ghost use Rattle.change_defs.specs.Changes.{changes};
ghost use Rattle.change_defs.specs.Text as spec;

use crate::scan::{next_difference, stretch};
use crate::text::change_text;
use change_defs::Part;
use std::alloc::{AllocError, Global};
use std::marker::Model;

/// The most bytes of a line, which is the line of an instruction of the machine: 192 of its front, 47 for each register
/// of the workspace, 16 for each byte that can change, 192 for what the ports hold, and the line feed.
pub const LONGEST: usize = 192 + 16 * 47 + 16 * (256 + 8192 + 24576 + 16384 + 8) + 192 + 1;

/// A line that grows, with room for the longest.
#[derive(Drop)]
pub struct LongLine {
    bytes: Vec<u8>,
}

impl Model for LongLine {
    ghost use Rattle.std.specs.Prelude.{◌≤◌, List, ℕ, vec_capacity};
    ghost use Rattle.step_changes.specs.declared.line.TheConstants.{LONGEST};

    ghost Value = { List ℕ };

    ghost view = { λ s. s.bytes.items };

    ghost invariant = { λ s. LONGEST ≤ vec_capacity s.bytes };
}

impl LongLine {
    /// An empty line. The memory for the longest is taken here, and none later.
    ///
    /// # Errors
    /// `AllocError` means out of memory.
    pub fn new(alloc: Global) -> Result<Self, AllocError>
        ensures { IfOk result (λ line. line ≡ []) }
    {
        Ok(LongLine {
            bytes: Vec::with_capacity(alloc, LONGEST)?,
        })
    }

    /// Makes the line empty.
    pub fn clear(&mut self)
        ensures { self.new ≡ [] }
    {
        self.bytes.clear();
    }

    /// Appends bytes.
    pub fn append(&mut self, bytes: &[u8])
        requires { length self.old + length bytes.now ≤ LONGEST }
        ensures { self.new ≡ self.old ++ bytes.now }
    {
        self.bytes.extend_from_slice(bytes).unwrap();
    }

    /// The bytes of the line.
    pub fn bytes(&self) -> &[u8]
        ensures { result.now ≡ self.now }
    {
        &self.bytes
    }
}

/// Appends all that changed of a part, and returns whether anything did. No memory is taken.
#[tactic(auto, unfolding(change_defs::specs::Text::part_text))]
pub fn append_part(line: &mut LongLine, part: Part, before: &[u8], now: &[u8]) -> bool
    requires before { length before.now ≡ spec.size_of part }
    requires now { length now.now ≡ spec.size_of part }
    requires room { length line.old + 16 * spec.size_of part ≤ LONGEST }
    ensures text { line.new ≡ line.old ++ spec.part_text part (changes before.now now.now) }
    ensures size { length line.new ≤ length line.old + 16 * spec.size_of part }
    ensures same { result ≡ false → before.now ≡ now.now }
{
    let mut at = 0;
    while let Some(from) = next_difference(before, now, at) {
        let count = stretch(before, now, from);
        let text = change_text(part, at, from, now[from], count);
        line.append(text.as_slice());
        at = from + count;
    }
    at != 0
}
