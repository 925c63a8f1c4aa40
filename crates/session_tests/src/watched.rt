//! The first step that changes a watched place.

ghost use Rattle.std.specs.Prelude.{◌≡◌, ◌<◌, All, IsTrue};
ghost use Rattle.gpl_run.specs.Sessions.{IsNew, gpl_state_of};
ghost use Rattle.gpl_watch.specs.Watches.{Keeps};
ghost use Rattle.watch_defs.specs.Items.{AreItems, IsItem};

use crate::programs::{Program, machine_of};
use crate::rows::ROWS;
use gpl_run::Session;
use gpl_watch::{Found, Item, Watch, is_item};
use std::alloc::{AllocError, Global};
use std::marker::Brand;
use std::sync::ledger::{Blank, Ledger};
use std::test::Fail;
use tms_step::{Machine, Steps};

/// Whether each of some items can be watched.
fn each_is_item(items: &[Item]) -> bool
    ensures { IsTrue result → All IsItem items.now }
{
    for item in items {
        if !is_item(item) {
            return false;
        }
    }
    true
}

/// Whether some items can be watched together.
fn are_items(items: &Vec<Item>) -> bool
    ensures { IsTrue result → AreItems items.now.items }
{
    if items.is_empty() || items.len() > 8 {
        return false;
    }
    each_is_item(items)
}

/// What a run finds, of a program that is running.
fn find<L: Ledger>(
    watch: &mut Watch,
    session: &mut Session,
    limit: u32,
    steps: &mut Steps<L>,
) -> Option<Found>
    requires { Keeps watch.old (gpl_state_of session.old) }
    ensures { Keeps watch.new (gpl_state_of session.new) }
{
    match session.ended() {
        None => Some(watch.run(session, limit, steps)),
        Some(_) => None,
    }
}

/// Whether one run after the other finds what it should, and the program reaches an address.
fn finds<L: Ledger>(
    blank: Blank,
    alloc: Global,
    machine: Machine,
    items: &Vec<Item>,
    limit: u32,
    found: &[Found],
    after: u16,
) -> Result<bool, AllocError>
    requires name { blank.name ≡ L.name }
    requires parts { blank.parts ≡ L.parts }
    requires some { 0 < L.parts }
    requires new { IsNew machine }
    requires items { AreItems items.now.items }
{
    let mut steps: Steps<L> = Steps::new(blank);
    let mut session = Session::new(machine, &mut steps);
    let mut watch = Watch::new(alloc, items, &session)?;
    for &one in found {
        if find(&mut watch, &mut session, limit, &mut steps) != Some(one) {
            return Ok(false);
        }
    }
    Ok(session.pc() == after)
}

/// Whether a program that is watched so gives this.
fn is_watched(
    alloc: Global,
    program: Program,
    items: &[Item],
    limit: u32,
    found: &[Found],
    after: u16,
) -> Option<bool> {
    let items = Vec::from_slice(alloc, items).ok()?;
    if !are_items(&items) {
        return None;
    }
    let machine = machine_of(alloc, program)?;
    finds::<Brand>(Blank::new(1), alloc, machine, &items, limit, found, after).ok()
}

#[test]
fn the_first_step_that_changes_a_watched_place_is_found(rt: HostRuntime) -> Result<(), Fail> {
    for &(name, program, items, limit, found, after) in ROWS {
        assert!(rt;
            is_watched(rt.alloc(), program, items, limit, found, after) == Some(true),
            "{name}"
        );
    }
    Ok(())
}
