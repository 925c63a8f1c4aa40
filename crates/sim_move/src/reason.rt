//! Reasons by their numbers.

ghost use Rattle.std.specs.Prelude.{◌≡◌, Some};
ghost use Rattle.sim_rows.specs.Prelude.{number_of};

use sim_rows::Reason;

/// The reason that has a number, if one has it.
pub(crate) fn reason_of(number: u16) -> Option<Reason>
    ensures found { (reason : Reason) → number_of reason ≡ number → result ≡ Some reason }
    ensures numbered { (reason : Reason) → result ≡ Some reason → number_of reason ≡ number }
{
    match number {
        0 => Some(Reason::Exit),
        1 => Some(Reason::Opcode),
        2 => Some(Reason::Cell),
        3 => Some(Reason::Stack),
        4 => Some(Reason::Length),
        5 => Some(Reason::Register),
        _ => None,
    }
}
