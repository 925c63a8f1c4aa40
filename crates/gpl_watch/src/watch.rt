//! What is watched of a program.

ghost use Rattle.std.specs.Prelude.{◌≡◌, IfOk};
ghost use Rattle.gpl_run.specs.Sessions.{gpl_state_of};
ghost use Rattle.watch_defs.specs.Items.{AreItems};
ghost use Rattle.watch_defs.specs.Hits as hits;
ghost use Rattle.gpl_watch.specs.Watches.{Keeps, Watches, items_of};

use crate::run::run_watched;
use crate::watched::Watched;
use gpl_run::Session;
use std::alloc::{AllocError, Global};
use std::marker::Model;
use std::sync::ledger::Ledger;
use tms_step::Steps;
use watch_defs::{Found, Item};

/// One to eight items that are watched of a GPL program, and the bytes of their ranges that it has shown.
///
/// Contracts see the list of the items, each with the bytes that are kept of it. Each item has bytes of its own, also
/// where ranges overlap, so whether an item holds does not depend on the others.
#[derive(Drop)]
pub struct Watch {
    watched: Vec<Watched>,
}

impl Model for Watch {
    ghost use Rattle.std.specs.Prelude.{◌≤◌, List, length};
    ghost use Rattle.gpl_watch.specs.Watches.{WatchedItem};

    ghost Value = { List WatchedItem };

    ghost view = { λ w. w.watched.items };

    ghost invariant = { λ w. length w.watched.items ≤ 8 };
}

impl Watch {
    /// Watches one to eight items of a program, and keeps the bytes of their ranges that it shows.
    ///
    /// # Errors
    /// `AllocError` comes if memory runs out.
    pub fn new(alloc: Global, items: &Vec<Item>, session: &Session) -> Result<Watch, AllocError>
        requires { AreItems items.now.items }
        ensures items { IfOk result (λ watch. items_of watch ≡ items.now.items) }
        ensures kept { IfOk result (λ watch. Keeps watch (gpl_state_of session.now)) }
    {
        let mut watched = Vec::with_capacity(alloc, items.len())?;
        for item in items {
            watched.push(Watched::new(alloc, *item, session)?)?;
        }
        Ok(Watch { watched })
    }

    /// Runs a program that is running up to the first step at which an item holds, and no more than `limit` steps. What
    /// is kept is what the program shows, before and after. It takes no memory.
    ///
    /// [`Found::Hit`] comes exactly where there is such a step: the program is running, and has made that step last.
    /// Else the program was run up to its end or to the limit.
    pub fn run<L: Ledger>(
        &mut self,
        session: &mut Session,
        limit: u32,
        steps: &mut Steps<L>,
    ) -> Found
        requires running { session.old.ended ≡ None }
        requires kept { Keeps self.old (gpl_state_of session.old) }
        ensures found { result ≡ hits.found (items_of self.old) limit (gpl_state_of session.old) }
        ensures runs { Watches limit session.old session.new steps.old steps.new result }
        ensures items { items_of self.new ≡ items_of self.old }
        ensures kept { Keeps self.new (gpl_state_of session.new) }
    {
        run_watched(&mut self.watched, session, limit, steps)
    }
}
