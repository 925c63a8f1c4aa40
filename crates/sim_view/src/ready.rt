//! Whether a machine is ready to run the interpreter, for hosts and tests that look at a machine before it is run.

ghost use Rattle.std.specs.Prelude.{◌≡◌, ◌<◌, ◌*◌, true, false};
ghost use Rattle.tms_defs.specs.Bytes.{word_in};
ghost use Rattle.interp_defs.specs.Interpreter.{HoldsInterpreter};
ghost use Rattle.sim_view.specs.View.{IsAt};

use console_bus::Bus;
use native_interp::{INTERP, ORIGIN, WORKSPACE};
use tms_step::Machine;

/// Does the machine stand at an address, with the interpreter's words and its workspace?
pub fn is_ready(machine: &Machine, address: u16) -> bool
    ensures is_at { result ≡ true → IsAt machine.now address }
    ensures lacks { result ≡ false → IsAt machine.now address → ⊥ }
{
    machine.holds_bounds();
    machine.pc() == address && machine.wp() == WORKSPACE && holds_interpreter(machine.bus())
}

/// Do the interpreter's words stand from its origin on?
fn holds_interpreter(bus: &Bus) -> bool
    ensures holds { result ≡ true → HoldsInterpreter bus.now.low_expansion }
    ensures lacks { result ≡ false → HoldsInterpreter bus.now.low_expansion → ⊥ }
{
    for (number, word) in INTERP.iter().enumerate() {
        if !holds_word(bus, number as u16, *word) {
            return false;
        }
    }
    true
}

/// Does a word stand in low expansion memory, as the one with a number from 0 on?
fn holds_word(bus: &Bus, number: u16, word: u16) -> bool
    requires { number < 4096 }
    ensures holds { result ≡ true → word_in bus.now.low_expansion (2 * number) ≡ word }
    ensures lacks { result ≡ false → word_in bus.now.low_expansion (2 * number) ≡ word → ⊥ }
{
    match bus.word_at(ORIGIN + 2 * number) {
        Ok(found) => found == word,
        Err(_) => false,
    }
}
