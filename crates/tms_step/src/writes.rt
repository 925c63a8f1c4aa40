//! Words that are written, and put back where a later access stops the instruction.

ghost use Rattle.std.specs.Prelude.{◌≡◌, IfOk, OnOk, OnErr, Some};
ghost use Rattle.tms_defs.specs.Accesses.{Gives};
ghost use Rattle.console_defs.specs.Memory.{Memory, console, word_read};
ghost use Rattle.tms_defs.specs.Step.{with_word, with_words};
ghost use Rattle.tms_step.specs.Stops.{left_by};
ghost use Rattle.tms_step.specs.Undo.{put_back, SameButPc};

use crate::cpu::{Cpu, Kept};
use tms_defs::PortStop;

impl Cpu {
    /// Writes words in a row; of each pair the first is the address. Where a port stops one of them, the memory is as
    /// before.
    #[tactic(auto, using(crate::proofs::PutBack::put_back_later))]
    pub(crate) fn write_words(&mut self, writes: &[(u16, u16)]) -> Result<(), PortStop>
        ensures value { left_by result (λ _. self.new) ≡ with_words Memory console self.old writes.now }
        ensures stopped { OnErr result (SameButPc self.old self.new) }
    {
        let [(address, word), rest @ ..] = writes else {
            return Ok(());
        };
        let kept = self.replace(*address, *word)?;
        let end = self.write_words(rest);
        self.undo_on_stop(end, Some(kept))
    }

    /// Writes a word over the one that is there, which is kept.
    fn replace(&mut self, address: u16, word: u16) -> Result<Kept, PortStop>
        ensures value { left_by result (λ _. self.new) ≡ with_word Memory console self.old address word }
        ensures undo { IfOk result (λ kept. SameButPc self.old (put_back (Some kept) self.new)) }
        ensures stopped { OnErr result (SameButPc self.old self.new) }
    {
        let old = self.word_at(address)?;
        self.write_over(address, old, word)?;
        Ok(Kept { address, word: old })
    }

    /// Writes a word over the one that is given.
    #[inline]
    pub(crate) fn write_over(&mut self, address: u16, old: u16, word: u16) -> Result<(), PortStop>
        requires { word_read self.old.memory address ≡ Gives old }
        ensures value { left_by result (λ _. self.new) ≡ with_word Memory console self.old address word }
        ensures undo { OnOk result (SameButPc self.old
            (put_back (Some (record { address = address; word = old })) self.new)) }
        ensures stopped { OnErr result (SameButPc self.old self.new) }
    {
        self.holds_bounds();
        self.write_word(address, word)?;
        Ok(())
    }

    /// How an instruction ends, where a word was written over before: unless it was executed, the word is put back.
    #[inline(always)]
    #[tactic(auto, using(crate::proofs::PutBack::put_back_later))]
    pub(crate) fn undo_on_stop(
        &mut self,
        end: Result<(), PortStop>,
        kept: Option<Kept>,
    ) -> Result<(), PortStop>
        ensures end { result ≡ end }
        ensures executed { OnOk result (self.new ≡ self.old) }
        ensures stopped { OnErr result (self.new ≡ put_back kept self.old) }
    {
        if end.is_err() {
            self.put_back(kept);
        }
        end
    }

    /// Puts a word back that was written over.
    #[inline]
    #[tactic(auto, using(crate::proofs::PutBack::taken_left))]
    pub(crate) fn put_back(&mut self, kept: Option<Kept>)
        ensures { self.new ≡ put_back kept self.old }
    {
        if let Some(kept) = kept {
            let _written = self.bus.write_word(kept.address, kept.word);
        }
    }
}
