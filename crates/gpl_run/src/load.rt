//! The machine on which the interpreter begins.

ghost use Rattle.std.specs.Prelude.{◌≡◌, length, IfOk};
ghost use Rattle.interp_build_defs.specs.Interpreter.{IsInterpreter};
ghost use Rattle.interp_defs.specs.Boot.{IsBoot};
ghost use Rattle.link_loader.specs.View.{model_of_linked};

use crate::load_machine;
use interp_build_defs::loaded_interpreters_boot;
use link_loader::Linked;
use native_interp::{GBOOT, WORKSPACE};
use std::alloc::{AllocError, Global};
use tms_step::Machine;

/// A machine that holds the interpreter, the 65,536 bytes `grom` in its GROMs, and the entry of a GPL program in the
/// interpreter's register 0. All else is as in a new machine, and it is at GBOOT.
pub fn load_interpreter(
    alloc: Global,
    interpreter: &Linked,
    grom: &[u8],
    entry: u16,
) -> Result<Machine, AllocError>
    requires built { IsInterpreter (model_of_linked interpreter.now) }
    requires size { length grom.now ≡ 65536 }
    ensures { IfOk result (IsBoot grom.now entry) }
{
    loaded_interpreters_boot();
    load_machine(alloc, interpreter, grom, WORKSPACE, GBOOT, entry)
}
