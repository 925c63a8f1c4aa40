//! A law of the definitions. The function does nothing, and its contract is the law.

ghost use Rattle.interp_defs.specs.Programs.{OneMachineIsLeft};

/// One machine is left of a program with an image and an entry that is run for up to `limit` steps: any two ways in
/// which the interpreter boots and takes its turns leave the same one.
pub fn one_machine_is_left()
    ensures { OneMachineIsLeft }
{}
