//! Laws of the bytes of GPL. Each function does nothing, and its contract is the law.
ghost use Rattle.gpl_defs.specs.Spellings as spec;

/// What is at an address means one instruction at most, and one address after it.
pub fn bytes_mean_one_instruction()
    ensures { spec.OneMeaning }
{}
