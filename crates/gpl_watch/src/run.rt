//! Runs of a program whose items are watched.

ghost use Rattle.std.specs.Prelude.{◌≡◌, ◌≤◌, ◌<◌, ◌+◌, length, map, IfSome};
ghost use Rattle.watch_defs.specs.declared.found.Found.TheVariants as result_of;
ghost use Rattle.gpl_run.specs.Sessions.{gpl_state_of};
ghost use Rattle.watch_defs.specs.Hits as hits;
ghost use Rattle.gpl_watch.specs.Watches.{Keeps, Watches, at_address, first_kept, items_of, watched_in};

use crate::watched::Watched;
use gpl_run::Session;
use interp_defs::Turn;
use std::sync::ledger::Ledger;
use tms_step::Steps;
use watch_defs::Found;

/// Runs a program up to the first step at which a watched item holds, and no more than a given number of steps.
pub(crate) fn run_watched<L: Ledger>(
    watched: &mut [Watched],
    session: &mut Session,
    limit: u32,
    steps: &mut Steps<L>,
) -> Found
    requires few { length watched.old ≤ 8 }
    requires running { session.old.ended ≡ None }
    requires kept { Keeps watched.old (gpl_state_of session.old) }
    ensures found { result ≡ hits.found (items_of watched.old) limit (gpl_state_of session.old) }
    ensures runs { Watches limit session.old session.new steps.old steps.new result }
    ensures items { items_of watched.new ≡ items_of watched.old }
    ensures kept { Keeps watched.new (gpl_state_of session.new) }
{
    session.holds_match();
    for made in 0..limit {
        let from = session.pc();
        if let Turn::Stopped(_) = session.next(steps) {
            return Found::None;
        }
        let reached = session.pc();
        if let Some(place) = first_that_holds(watched, session, reached) {
            let found = hit(made + 1, from, place, watched[place].change(session));
            keep_all(watched, session);
            return found;
        }
    }
    Found::None
}

/// The place in the list of the first item that holds at the step that the program has just made, and that led to
/// `reached`.
fn first_that_holds(watched: &[Watched], session: &Session, reached: u16) -> Option<usize>
    ensures first { result ≡ first_kept (at_address reached (gpl_state_of session.now)) watched.now }
    ensures within { IfSome result (λ place. place < length watched.now) }
{
    watched.iter().position(|one| one.holds(session, reached))
}

/// The hit of a step: its number, the address of its instruction, the place of the item, and its change.
fn hit(step: u32, from: u16, place: usize, change: Option<(u16, u8)>) -> Found
    requires { place < 8 }
    ensures { result ≡ result_of.Hit step from (place + 1) change }
{
    Found::Hit {
        step,
        from,
        item: place as u8 + 1,
        change,
    }
}

/// Keeps what the program shows now of all items.
fn keep_all(watched: &mut [Watched], session: &Session)
    ensures { watched.new ≡ map (λ w. watched_in (gpl_state_of session.now) w.item) watched.old }
{
    for one in watched.iter_mut() {
        one.keep(session);
    }
}
