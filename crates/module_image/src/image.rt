//! The bytes and words of both parts.

ghost use Rattle.std.specs.Prelude.{◌≡◌, ◌≤◌, ◌+◌, List, length, IfOk};
ghost use Rattle.object_defs.specs.Modules.{Reference};
ghost use Rattle.asm_defs.specs.Memory as spec;
ghost use Rattle.module_image.specs.Images.{IsEmpty, IsPut, any_put, Places};

use crate::memory::Table;
use asm_defs::{AsmCause, Content, Location, Part};
use object_defs::Spot;
use object_tags::MOST_WORDS;
use std::alloc::{AllocError, Global};

/// The bytes and words that lines place.
#[derive(Debug, Drop)]
pub struct Image {
    /// The relocatable ones.
    pub relocatable: Table,
    /// The absolute ones.
    pub absolute: Table,
}

impl Image {
    /// The image of no lines.
    pub fn new(alloc: Global) -> Result<Image, AllocError>
        ensures { IfOk result IsEmpty }
    {
        Ok(Image {
            relocatable: Table::new(alloc)?,
            absolute: Table::new(alloc)?,
        })
    }

    /// Places the bytes of a line after others.
    ///
    /// # Errors
    /// They are placed in any case. `Overflow` comes where the module has too many words then, and else `Overlap` where
    /// one was placed there before.
    pub fn place(&mut self, at: Location, contents: &[Content]) -> Result<(), AsmCause>
        requires { at.number + length contents.now ≤ 65536 }
        ensures { (references : List Reference) (earlier : List spec.AssembledLine) (line : spec.AssembledLine) →
            Places references earlier line at contents.now result self.old self.new }
    {
        let overlaps = self.has_any(at, contents.len());
        self.fill_reserved(at, contents);
        if self.relocatable.words + self.absolute.words > MOST_WORDS as u32 {
            return Err(AsmCause::Overflow);
        }
        if overlaps {
            return Err(AsmCause::Overlap);
        }
        Ok(())
    }

    /// Puts bytes from a place on. Nothing is put in the part of dummy lines.
    pub fn fill_reserved(&mut self, at: Location, contents: &[Content])
        requires { at.number + length contents.now ≤ 65536 }
        ensures { IsPut at contents.now self.old self.new }
    {
        match at.part {
            Part::Relocatable => self.relocatable.put_all(at.number as usize, contents),
            Part::Absolute => self.absolute.put_all(at.number as usize, contents),
            Part::Dummy => {}
        }
    }

    /// Whether one of some bytes from a place on was put before.
    fn has_any(&self, at: Location, count: usize) -> bool
        requires { at.number + count ≤ 65536 }
        ensures { result ≡ any_put self.now at count }
    {
        match at.part {
            Part::Relocatable => self.relocatable.any_taken(at.number as usize, count),
            Part::Absolute => self.absolute.any_taken(at.number as usize, count),
            Part::Dummy => false,
        }
    }
}

/// The spot of a place in a part.
pub fn spot_at(part: Part, number: u32) -> Spot
    requires { number ≤ 65535 }
    ensures { result ≡ spec.spot_by part number }
{
    match part {
        Part::Relocatable => Spot::Relocatable(number as u16),
        Part::Absolute | Part::Dummy => Spot::Absolute(number as u16),
    }
}
