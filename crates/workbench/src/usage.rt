//! How the program is called.

ghost use Rattle.std.specs.Prelude.{◌≡◌};
ghost use Rattle.report_defs.specs.ProgramCommands.{program_usage};

/// How the program is called.
#[tactic(auto, unfolding(report_defs::specs::ProgramCommands::program_usage))]
pub(crate) fn usage() -> &'static [u8]
    ensures { result.now ≡ program_usage }
{
    b"usage: ti_bench asm|link [NAME ...]|dis ADDR|exec N|gasm|gdis ADDR|interp|run N|trace N|demo K|watch N ITEM ...\n"
}
