//! The last uses of the names that other modules define.

ghost use Rattle.std.specs.Prelude.{◌≡◌, map};
ghost use Rattle.object_tags.specs.Seen.{model_of_ref};
ghost use Rattle.asm_defs.specs.Memory as spec;

use asm_text::Name;
use object_defs::Spot;
use object_tags::Ref;

/// Notes that a name is used at a place, and answers the place of its use before; absolute 0 at the first use
/// (Editor/Assembler manual, "External Reference").
pub(crate) fn use_name(references: &mut Vec<Ref>, name: &Name, at: Spot) -> Spot
    ensures last { result ≡ spec.last_use (map model_of_ref references.old.items) name.now }
    ensures used { map model_of_ref references.new.items
        ≡ spec.with_use (map model_of_ref references.old.items) name.now at }
{
    for index in 0..references.len() {
        if references[index].name == *name {
            let last = references[index].last;
            references[index].last = at;
            return last;
        }
    }
    Spot::Absolute(0)
}
