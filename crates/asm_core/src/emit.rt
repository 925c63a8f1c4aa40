//! What a builder emits of a line.

ghost use Rattle.std.specs.Prelude.{◌≡◌, ◌<◌, ◌≤◌, ◌+◌, ◌-◌, ◌^◌, List, length, IsSome, IfOk, OnOk, IsTrue};
ghost use Rattle.asm_defs.specs.Locations as places;
ghost use Rattle.asm_defs.specs.Memory.{AssembledLine};
ghost use Rattle.asm_checks.specs.Defined.{model_of_statement};
ghost use Rattle.asm_checks.specs.Moves.{MovesWithin};
ghost use Rattle.asm_checks.specs.Checks.{IsParsed};
ghost use Rattle.asm_core.specs.Assembling.{Assembles, HasRoom, EmittedFits};
ghost use Rattle.asm_core.specs.Building.{ImageOf};
ghost use Rattle.asm_core.specs.Emitting.{SameKnown, SameLines, AreContents, Places, Stops, Emits};

use crate::first_pass::{Assembled, Emitted, FirstPass};
use crate::lines::AsmLines;
use crate::pending::Refused;
use asm_checks::{Checked, after};
use asm_defs::{AsmCause, Content, Location};
use module_image::Image;
use std::alloc::AllocError;

impl AsmLines {
    /// Makes the image ready for a line.
    pub(crate) fn prepare(&mut self) -> Result<(), AllocError>
        ensures ready { OnOk result (IsSome self.new.image) }
        ensures image { (lines : List AssembledLine) → ImageOf lines self.old.image → ImageOf lines self.new.image }
        ensures lines { SameLines self.old self.new }
    {
        if self.image.is_none() {
            let image = Image::new(self.alloc)?;
            self.image = Some(image);
        }
        Ok(())
    }

    /// Assembles the next line by the names that are known.
    pub(crate) fn assemble_line(
        &self,
        text: &[u8],
        checked: &Checked<'_>,
    ) -> Result<Assembled, AllocError>
        requires taken { self.now.taken < 2 ^ 32 - 1 }
        requires line { IsParsed checked.now.parsed }
        requires within { MovesWithin checked.now.moved }
        requires room { HasRoom (places.after self.now.location checked.now.moved.gap) text.now
            (model_of_statement checked.now.parsed.statement) }
        ensures { IfOk result (Assembles self.now.symbols (self.now.taken + 1)
            (places.after self.now.location checked.now.moved.gap)
            text.now (model_of_statement checked.now.parsed.statement)) }
    {
        let first_pass = FirstPass {
            alloc: self.alloc,
            symbols: &self.symbols,
            number: self.taken + 1,
            at: after(self.location, checked.moved.gap),
        };
        first_pass.assemble_line(text, &checked.parsed)
    }

    /// Emits the next line: places its bytes, or notes why it is refused.
    pub(crate) fn emit(&mut self, at: Location, emitted: Emitted, waits: bool)
        requires taken { self.old.taken < 2 ^ 32 - 1 }
        requires ready { IsSome self.old.image }
        requires fits { EmittedFits at emitted }
        requires last { IsTrue waits → 0 < length self.old.waiting.items }
        ensures known { SameKnown self.old self.new }
        ensures emits { Emits self.old at emitted waits self.new }
    {
        match emitted {
            Emitted::Refused(cause) => self.stop(cause, false),
            Emitted::Bytes(bytes) => {
                if let Err(cause) = self.place(at, bytes.as_slice()) {
                    self.stop(cause, waits);
                }
            }
        }
    }

    /// Places the bytes of a line.
    fn place(&mut self, at: Location, contents: &[Content]) -> Result<(), AsmCause>
        requires ready { IsSome self.old.image }
        requires fits { at.number + length contents.now ≤ 65536 }
        ensures placed { (earlier : List AssembledLine) (line : AssembledLine) → ImageOf earlier self.old.image →
            AreContents at contents.now earlier line → Places earlier line result self.new.image }
        ensures lines { SameLines self.old self.new }
    {
        match &mut self.image {
            Some(image) => image.place(at, contents),
            None => unreachable!(),
        }
    }

    /// Refuses the next line, which is the last that waits where it does.
    fn stop(&mut self, cause: AsmCause, waits: bool)
        requires taken { self.old.taken < 2 ^ 32 - 1 }
        requires last { IsTrue waits → 0 < length self.old.waiting.items }
        ensures known { SameKnown self.old self.new }
        ensures stops { Stops self.old cause waits self.new }
    {
        let waiting = if waits { self.waiting.pop() } else { None };
        self.refused = Some(Refused {
            line: self.taken + 1,
            cause,
            waiting,
        });
    }
}
