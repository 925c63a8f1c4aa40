//! Registers of the interpreter's workspace.

ghost use Rattle.std.specs.Prelude.{◌≡◌, ◌<◌, slice_index};
ghost use Rattle.native_interp.specs.declared.addresses.TheConstants.{WORKSPACE};
ghost use Rattle.sim_view.specs.View.{view, listed};

use tms_step::Machine;

/// The register with a number below 16, where the workspace is the interpreter's.
pub fn register(machine: &Machine, number: u8) -> u16
    requires number { number < 16 }
    requires workspace { machine.now.cpu.wp ≡ WORKSPACE }
    ensures { result ≡ slice_index (listed (view machine.now).r) number }
{
    machine.holds_bounds();
    machine.register(number)
}
