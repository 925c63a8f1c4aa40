//! The text of the groups.

ghost use Rattle.std.specs.Prelude.{◌≡◌, ◌≤◌, ◌<◌, ◌+◌, ◌++◌, IsTrue, length, replicate};
ghost use Rattle.object_defs.specs.Digits as digits;
ghost use Rattle.object_defs.specs.Modules as modules;
ghost use Rattle.object_defs.specs.Writing as writing;
ghost use Rattle.object_defs.specs.Laws.{FitsSpot, FitsDefinition, FitsReference};
ghost use Rattle.object_tags.specs.Seen.{model_of_def, model_of_ref};

use crate::module_name::ModuleName;
use crate::parts::{Def, Ref};
use crate::spots::{kind_of, number_of};
use crate::tags::tag_character;
use arrayvec::ArrayVec;
use asm_text::word_digits;
use object_defs::{Spot, Tag};

/// The text of a group: a tag, four digits, and up to eight characters of a name.
pub(crate) type GroupText = ArrayVec<u8, 13>;

/// A tag and four digits.
#[tactic(auto, unfolding(source_defs::specs::Digits::word_digits))]
pub(crate) fn group(tag: Tag, number: u16) -> GroupText
    ensures text { result.items ≡ writing.group tag number }
    ensures size { length result.items ≡ 5 }
{
    let mut text = GroupText::new();
    text.push(tag_character(tag));
    text.try_extend_from_slice(&word_digits(number)).unwrap();
    text
}

/// A tag, four digits and a name with blanks after it.
fn named_group(tag: Tag, number: u16, name: &[u8]) -> GroupText
    requires { length name.now ≤ 6 }
    ensures { result.items ≡ writing.group tag number ++ digits.padded 6 name.now }
{
    let mut text = group(tag, number);
    text.try_extend_from_slice(name).unwrap();
    put_blanks(&mut text, 6 - name.len());
    text
}

/// Puts some blanks after a text, which has room for them.
pub(crate) fn put_blanks<const N: usize>(text: &mut ArrayVec<u8, N>, count: usize)
    requires { length text.old.items + count ≤ N }
    ensures { text.new.items ≡ text.old.items ++ replicate count 0x20 }
{
    for _ in 0..count {
        text.push(b' ');
    }
}

/// The first group of a module.
pub(crate) fn header_text(size: u16, name: &ModuleName) -> GroupText
    ensures text { result.items ≡ writing.header_text size name.now }
    ensures size { size < 65536 }
    ensures name { IsTrue (modules.is_module_name name.now) }
{
    let mut text = group(Tag::Header, size);
    text.try_extend_from_slice(name.as_bytes()).unwrap();
    text
}

pub(crate) fn address_text(at: Spot) -> GroupText
    ensures text { result.items ≡ writing.address_text at }
    ensures size { length result.items ≡ 5 }
    ensures fits { FitsSpot at }
{
    group(Tag::Address(kind_of(at)), number_of(at))
}

pub(crate) fn word_text(word: Spot) -> GroupText
    ensures text { result.items ≡ writing.word_text word }
    ensures size { length result.items ≡ 5 }
    ensures fits { FitsSpot word }
{
    group(Tag::Word(kind_of(word)), number_of(word))
}

pub(crate) fn entry_text(entry: Spot) -> GroupText
    ensures text { result.items ≡ writing.entry_text entry }
    ensures fits { FitsSpot entry }
{
    group(Tag::Entry(kind_of(entry)), number_of(entry))
}

pub(crate) fn definition_text(def: &Def) -> GroupText
    ensures text { result.items ≡ writing.definition_text (model_of_def def.now) }
    ensures fits { FitsDefinition (model_of_def def.now) }
{
    named_group(
        Tag::Definition(kind_of(def.value)),
        number_of(def.value),
        def.name.as_bytes(),
    )
}

pub(crate) fn reference_text(reference: &Ref) -> GroupText
    ensures text { result.items ≡ writing.reference_text (model_of_ref reference.now) }
    ensures fits { FitsReference (model_of_ref reference.now) }
{
    named_group(
        Tag::Reference(kind_of(reference.last)),
        number_of(reference.last),
        reference.name.as_bytes(),
    )
}
