//! The word of the status register.

ghost use Rattle.std.specs.Prelude.{◌≡◌, ◌<◌, ◌≤◌};
ghost use Rattle.tms_defs.specs.Status.{IsStatus, bit_of, is_set, status_at, status_word};

use crate::cpu::Cpu;
use tms_defs::{Flags, Status};

impl Cpu {
    /// The word of the status register (TMS9900 data manual, "Status register").
    #[tactic(auto, using(tms_defs::proofs::StatusLaws::status_again))]
    pub(crate) fn status_word(&self) -> u16
        ensures word { result ≡ status_word self.now.status }
        ensures status { status_at result ≡ self.now.status }
    {
        let status = self.status;
        bit_of(status.flags.lgt, 0x8000)
            + bit_of(status.flags.agt, 0x4000)
            + bit_of(status.flags.eq, 0x2000)
            + bit_of(status.flags.c, 0x1000)
            + bit_of(status.flags.ov, 0x0800)
            + bit_of(status.op, 0x0400)
            + status.rest
    }
}

/// A bit in its place, or 0.
fn bit_of(bit: bool, weight: u16) -> u16
    ensures value { result ≡ bit_of bit weight }
    ensures limit { result ≤ weight }
{
    if bit { weight } else { 0 }
}

/// The status register of a word (TMS9900 data manual, "Status register").
pub(crate) fn status_at(word: u16) -> Status
    ensures value { result ≡ status_at word }
    ensures room { IsStatus result }
{
    let flags = Flags {
        lgt: is_set(word, 0x8000),
        agt: is_set(word, 0x4000),
        eq: is_set(word, 0x2000),
        c: is_set(word, 0x1000),
        ov: is_set(word, 0x0800),
    };
    Status {
        flags,
        op: is_set(word, 0x0400),
        rest: word % 0x0400,
    }
}

/// A bit of a word is set.
fn is_set(word: u16, weight: u16) -> bool
    requires { 0 < weight }
    ensures { result ≡ is_set word weight }
{
    word / weight % 2 == 1
}
