//! The change to another workspace, and back.

ghost use Rattle.std.specs.Prelude.{◌≡◌, IfOk};
ghost use Rattle.tms_defs.specs.Words.{even};
ghost use Rattle.console_defs.specs.Memory.{Memory, console};
ghost use Rattle.tms_defs.specs.Step.{kept_in, vector_at, kept_of};
ghost use Rattle.tms_step.specs.Stops.{left_by};

use crate::cpu::{Cpu, even, register_in};
use tms_defs::PortStop;

impl Cpu {
    /// The workspace pointer and the program counter of a context switch, from two words of memory (TMS9900 data
    /// manual, "Branch and load workspace pointer", "Extended operation (XOP) instruction").
    pub(crate) fn vector_at(&self, at: u16) -> Result<(u16, u16), PortStop>
        ensures value { left_by result (λ vector. vector) ≡ vector_at Memory console at self.now }
        ensures even { IfOk result (λ vector. (even vector.0 ≡ vector.0) × (even vector.1 ≡ vector.1)) }
    {
        let wp = self.word_at(at)?;
        let pc = self.word_at(at.wrapping_add(2))?;
        Ok((even(wp), even(pc)))
    }

    /// What a context switch keeps in registers 13, 14 and 15 of a workspace: each with the address of its register
    /// (TMS9900 data manual, "Branch and load workspace pointer", "Extended operation (XOP) instruction").
    pub(crate) fn kept_in(&self, wp: u16) -> [(u16, u16); 3]
        ensures { result ≡ kept_in wp self.now }
    {
        [
            (register_in(wp, 13), self.wp),
            (register_in(wp, 14), self.pc),
            (register_in(wp, 15), self.status_word()),
        ]
    }

    /// What a context switch kept: workspace pointer, program counter and status, in registers 13, 14 and 15 (TMS9900
    /// data manual, "Return workspace pointer (RTWP) instruction").
    pub(crate) fn kept(&self) -> Result<(u16, u16, u16), PortStop>
        ensures { left_by result (λ kept. kept) ≡ kept_of Memory console self.now }
    {
        let wp = self.word_at(self.register_address(13))?;
        let pc = self.word_at(self.register_address(14))?;
        let status = self.word_at(self.register_address(15))?;
        Ok((wp, pc, status))
    }
}
