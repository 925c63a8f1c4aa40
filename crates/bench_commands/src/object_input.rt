//! Linked memory of an object text.

ghost use Rattle.std.specs.Prelude.{◌≤◌, length};
ghost use Rattle.report_defs.specs.ObjectInput.{linked_input};
ghost use Rattle.report_defs.specs.Report.{largest_input};
ghost use Rattle.bench_commands.specs.LinkedInput.{LinksInput};

use link_loader::{Linked, link};
use object_tags::read_modules;
use reports::CommandError;
use std::alloc::Global;

/// The linked memory of an object text, or why there is none.
pub(crate) fn link_input(alloc: Global, input: &[u8]) -> Result<Linked, CommandError>
    requires { length input.now ≤ largest_input }
    ensures { LinksInput result (linked_input input.now) }
{
    let modules = read_modules(alloc, input)?;
    Ok(link(alloc, &modules)?)
}
