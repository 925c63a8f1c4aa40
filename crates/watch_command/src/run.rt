//! A program that is run while its items are watched.

ghost use Rattle.std.specs.Prelude.{◌≡◌, ◌<◌, IfOk};
ghost use Rattle.gpl_run.specs.Sessions.{IsNew, image_of, entry_of};
ghost use Rattle.watch_command.specs.Ran.{WatchesProgram};

use crate::items::WatchedItems;
use gpl_run::Session;
use gpl_watch::Watch;
use reports::Watched;
use std::alloc::{AllocError, Global};
use std::marker::Brand;
use std::sync::ledger::{Blank, Ledger};
use tms_step::{Machine, Steps};

/// Runs the program that a machine holds on which the interpreter begins, up to the first step at which one of one to
/// eight items holds, and no more than `limit` steps. All memory is taken before the first step.
///
/// # Errors
/// `AllocError` comes if memory runs out.
pub fn watch_program(
    alloc: Global,
    machine: Machine,
    limit: u32,
    items: &WatchedItems,
) -> Result<Watched, AllocError>
    requires new { IsNew machine }
    ensures { IfOk result (WatchesProgram (image_of machine) (entry_of machine) limit items.now) }
{
    watch_session::<Brand>(alloc, machine, limit, items, Blank::new(1))
}

/// The same, with a counter of the instructions.
fn watch_session<L: Ledger>(
    alloc: Global,
    machine: Machine,
    limit: u32,
    items: &WatchedItems,
    blank: Blank,
) -> Result<Watched, AllocError>
    requires name { blank.name ≡ L.name }
    requires parts { blank.parts ≡ L.parts }
    requires some { 0 < L.parts }
    requires new { IsNew machine }
    ensures { IfOk result (WatchesProgram (image_of machine) (entry_of machine) limit items.now) }
{
    let mut steps = Steps::<L>::new(blank);
    machine.holds_bounds();
    let mut session = Session::new(machine, &mut steps);
    let items = Vec::from_slice(alloc, items.as_slice())?;
    let mut watch = Watch::new(alloc, &items, &session)?;
    let found = watch.run(&mut session, limit, &mut steps);
    session.machine().holds_bounds();
    Ok(Watched { found, session })
}
