//! A GPL program that the interpreter runs step by step.

ghost use Rattle.std.specs.Prelude.{◌≡◌, ℕ, None, is_none};
ghost use Rattle.gpl_step_defs.specs.State.{start};
ghost use Rattle.interp_defs.specs.Match.{shown_by};
ghost use Rattle.interp_defs.specs.Programs.{bound_of_boot};
ghost use Rattle.interp_defs.specs.Turned.{Turned, whole_turn};
ghost use Rattle.sim_steps.specs.Running.{RunsTurns};
ghost use Rattle.sim_steps.specs.Starting.{StartsProgram};
ghost use Rattle.gpl_run.specs.Sessions.{IsSession, IsNew, image_of, entry_of, ended_by, address_in};

use gpl_step_defs::Reason;
use interp_defs::Turn;
use memory_basics::previous_in_grom;
use sim_steps::{gpl_turn, machines_start, run_turns, start_program};
use sim_view::register;
use std::marker::Model;
use std::sync::ledger::Ledger;
use tms_step::{Machine, Steps};

/// A GPL program that the interpreter runs, step by step.
///
/// Contracts see its machine and why the program has ended, if it has. The machine of a running program matches a state
/// of GPL; the machine of a program that has ended is halted.
#[derive(Drop)]
pub struct Session {
    machine: Machine,
    ended: Option<Reason>,
}

impl Model for Session {
    ghost use Rattle.gpl_run.specs.Sessions.{SessionState, IsSession};

    ghost Value = { SessionState };

    ghost view = { λ s. record { machine = s.machine; ended = s.ended } };

    ghost invariant = { λ s. IsSession s.machine s.ended };
}

impl Session {
    /// Boots the interpreter on a machine that holds it, an image and the entry of a program. The session is before
    /// the program's first step. It takes no memory.
    pub fn new<L: Ledger>(machine: Machine, steps: &mut Steps<L>) -> Session
        requires { IsNew machine }
        ensures begins { StartsProgram (start (image_of machine) (entry_of machine)) bound_of_boot
            machine result.machine steps.old steps.new }
        ensures running { result.ended ≡ None }
    {
        machine.holds_bounds();
        machines_start();
        let mut machine = machine;
        start_program(&mut machine, steps);
        Session {
            machine,
            ended: None,
        }
    }

    /// Runs one step of a program that is running. After [`Turn::Stopped`] it is not running, and its machine shows the
    /// stop. It takes no memory.
    pub fn next<L: Ledger>(&mut self, steps: &mut Steps<L>) -> Turn
        requires running { self.old.ended ≡ None }
        ensures turned { Turned (shown_by self.old.machine.cpu.memory)
            self.old.machine self.new.machine (whole_turn steps.old steps.new) result }
        ensures ended { self.new.ended ≡ ended_by result }
    {
        let turn = gpl_turn(&mut self.machine, steps);
        if let Turn::Stopped(reason) = turn {
            self.ended = Some(reason);
        }
        turn
    }

    /// Runs a program that is running up to its end, and no more than `limit` steps: how many were made. It takes no
    /// memory.
    pub fn run<L: Ledger>(&mut self, limit: u32, steps: &mut Steps<L>) -> u32
        requires running { self.old.ended ≡ None }
        ensures { RunsTurns (shown_by self.old.machine.cpu.memory) limit
            self.old.machine self.new.machine steps.old steps.new result self.new.ended }
    {
        let (made, stop) = run_turns(&mut self.machine, steps, limit);
        self.ended = stop;
        made
    }

    /// Is the program running? Where it is, its machine matches the state that it shows; else its machine is halted.
    pub fn is_running(&self) -> bool
        ensures running { result ≡ is_none self.now.ended }
        ensures machine { IsSession self.now.machine self.now.ended }
    {
        self.ended.is_none()
    }

    /// Does nothing. Its contract says what holds of every session, for the proof of a caller: the machine of a running
    /// program matches the state that it shows, and the machine of another is halted.
    pub fn holds_match(&self)
        ensures { IsSession self.now.machine self.now.ended }
    {
        let _ended = self.ended;
    }

    /// The machine that runs it.
    pub fn machine(&self) -> &Machine
        ensures { result.now ≡ self.now.machine }
    {
        &self.machine
    }

    /// The address of the next code byte, or of the one that ended the program.
    pub fn pc(&self) -> u16
        ensures { result ≡ address_in self.now.ended self.now.machine }
    {
        self.machine.holds_bounds();
        match self.ended {
            None => previous_in_grom(self.machine.bus().grom().counter()),
            Some(_) => register(&self.machine, 1),
        }
    }

    /// Why the program has ended, or `None` while it is running.
    pub fn ended(&self) -> Option<Reason>
        ensures { result ≡ self.now.ended }
    {
        self.ended
    }
}
