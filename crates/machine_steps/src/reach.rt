//! What an instruction can change.

ghost use Rattle.std.specs.Prelude.{◌≡◌};
ghost use Rattle.tms_defs.specs.Instructions.{instr_at};
ghost use Rattle.machine_steps.specs.Reach as spec;

use tms_defs::Instr;
use tms_words::decode;

/// How far what an instruction changes can reach. It decides which parts of the memory are compared, and has no effect
/// but on the time.
#[derive(Clone, Copy, PartialEq, Eq, Debug)]
pub(crate) enum Reach {
    /// It changes no memory.
    Nothing,
    /// It accesses words alone, so nothing after a port.
    Words,
    /// It accesses bytes.
    Bytes,
}

/// How far the instruction with this word can reach.
pub(crate) fn reach_of(word: u16) -> Reach
    ensures { result ≡ spec.reach_of (instr_at word) }
{
    match decode(word) {
        None | Some(Instr::Two { byte: true, .. }) => Reach::Bytes,
        Some(Instr::Jump { .. }) => Reach::Nothing,
        Some(_) => Reach::Words,
    }
}
