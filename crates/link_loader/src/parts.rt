//! What the modules of a program say, by their addresses.

ghost use Rattle.std.specs.Prelude.{◌≡◌, ◌≤◌, ◌<◌, ◌^◌, [], ◌++◌, map, vec_len, IfOk, OnOk};
ghost use Rattle.std.specs.Option.{option_to_list};
ghost use Rattle.object_tags.specs.Seen.{model_of_def, model_of_ref, model_of_module};
ghost use Rattle.link_defs.specs.Placing as placing;
ghost use Rattle.link_loader.specs.Parts.{model_of_modules};
ghost use Rattle.std.specs.Prelude.{◌∷◌};

use asm_text::Name;
use object_tags::{Def, Module, Piece, Ref, Spot};
use std::alloc::{AllocError, Global};

/// The address from which on the relocatable code of the first module stands.
const FIRST_BASE: u32 = 0xA000;

/// What modules say, one after the other, in each the order of its list.
#[derive(Drop)]
pub(crate) struct Parts {
    /// The DEF names with their values.
    pub(crate) defs: Vec<(Name, u16)>,
    /// The words, each after its address, which is counted without wrap.
    pub(crate) words: Vec<(u32, u16)>,
    /// The REF names, each with the place of its last use.
    pub(crate) refs: Vec<(Name, u16)>,
    /// The entries of the modules that have one.
    pub(crate) entries: Vec<u16>,
}

impl Parts {
    /// What up to 1,024 modules say.
    pub(crate) fn of(alloc: Global, modules: &Vec<Module>) -> Result<Parts, AllocError>
        requires { vec_len modules.now ≤ 1024 }
        ensures defs { IfOk result (λ parts.
            parts.defs.items ≡ placing.defs_of (placing.sections (model_of_modules modules.now.items))) }
        ensures words { IfOk result (λ parts.
            parts.words.items ≡ placing.section_words (placing.sections (model_of_modules modules.now.items))) }
        ensures refs { IfOk result (λ parts.
            parts.refs.items ≡ placing.refs_of (placing.sections (model_of_modules modules.now.items))) }
        ensures entries { IfOk result (λ parts.
            parts.entries.items ≡ placing.entries_of (placing.sections (model_of_modules modules.now.items))) }
    {
        let mut parts = Parts::new(alloc);
        let mut base = FIRST_BASE;
        for module in modules.as_slice() {
            parts.add(base, module)?;
            base += even_size(module.size);
        }
        Ok(parts)
    }

    /// What no modules say.
    fn new(alloc: Global) -> Parts
        ensures defs { result.defs.items ≡ [] }
        ensures words { result.words.items ≡ [] }
        ensures refs { result.refs.items ≡ [] }
        ensures entries { result.entries.items ≡ [] }
    {
        Parts {
            defs: Vec::new(alloc),
            words: Vec::new(alloc),
            refs: Vec::new(alloc),
            entries: Vec::new(alloc),
        }
    }

    /// Adds what a module says whose relocatable code begins at an address.
    fn add(&mut self, base: u32, module: &Module) -> Result<(), AllocError>
        requires { base < 2 ^ 31 }
        ensures defs { OnOk result (self.new.defs.items
            ≡ self.old.defs.items ++ map (placing.def_at base) (model_of_module «module».now).defs) }
        ensures words { OnOk result (self.new.words.items
            ≡ self.old.words.items ++ map (placing.word_at base) (model_of_module «module».now).pieces) }
        ensures refs { OnOk result (self.new.refs.items
            ≡ self.old.refs.items ++ map (placing.ref_at base) (model_of_module «module».now).refs) }
        ensures entries { OnOk result (self.new.entries.items
            ≡ self.old.entries.items ++ map (placing.value_of base) (option_to_list «module».now.entry)) }
    {
        add_defs(&mut self.defs, base, module.defs.as_slice())?;
        add_words(&mut self.words, base, module.pieces.as_slice())?;
        add_refs(&mut self.refs, base, module.refs.as_slice())?;
        if let Some(entry) = module.entry {
            self.entries.push(value_of(base, entry))?;
        }
        Ok(())
    }
}

fn add_defs(found: &mut Vec<(Name, u16)>, base: u32, defs: &[Def]) -> Result<(), AllocError>
    requires { base < 2 ^ 31 }
    ensures { OnOk result (found.new.items ≡ found.old.items ++ map (placing.def_at base) (map model_of_def defs.now)) }
{
    for def in defs {
        found.push((def.name, value_of(base, def.value)))?;
    }
    Ok(())
}

fn add_words(found: &mut Vec<(u32, u16)>, base: u32, pieces: &[Piece]) -> Result<(), AllocError>
    requires { base < 2 ^ 31 }
    ensures { OnOk result (found.new.items ≡ found.old.items ++ map (placing.word_at base) pieces.now) }
{
    for piece in pieces {
        found.push((address_of(base, piece.at), value_of(base, piece.word)))?;
    }
    Ok(())
}

fn add_refs(found: &mut Vec<(Name, u16)>, base: u32, refs: &[Ref]) -> Result<(), AllocError>
    requires { base < 2 ^ 31 }
    ensures { OnOk result (found.new.items ≡ found.old.items ++ map (placing.ref_at base) (map model_of_ref refs.now)) }
{
    for reference in refs {
        found.push((reference.name, value_of(base, reference.last)))?;
    }
    Ok(())
}

/// The address of a spot in a module, without wrap.
fn address_of(base: u32, spot: Spot) -> u32
    requires { base < 2 ^ 31 }
    ensures { result ≡ placing.address_of base spot }
{
    match spot {
        Spot::Absolute(number) => u32::from(number),
        Spot::Relocatable(number) => base + u32::from(number),
    }
}

/// The value of a spot in a module, in 16 bits.
fn value_of(base: u32, spot: Spot) -> u16
    requires { base < 2 ^ 31 }
    ensures { result ≡ placing.value_of base spot }
{
    (address_of(base, spot) % 0x1_0000) as u16
}

/// A size, or the next one where it is odd.
fn even_size(size: u16) -> u32
    ensures value { result ≡ placing.even_size size }
    ensures most { result ≤ 65536 }
{
    u32::from(size) + u32::from(size % 2)
}
