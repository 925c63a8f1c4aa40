//! Laws of the definitions. The function does nothing, and its contract is the law.

ghost use Rattle.sim_steps.specs.Starting.{MachinesStart};

/// A machine with the interpreter and a GPL program is at boot, and its first step is from the program's start.
pub fn machines_start()
    ensures { MachinesStart }
{}
