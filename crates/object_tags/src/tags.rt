//! The tags, by their characters.

ghost use Rattle.std.specs.Prelude.{◌≡◌};
ghost use Rattle.object_defs.specs.Tags as tags;

use object_defs::{Kind, Tag, TextForm};

/// The character of a tag in plain text.
pub(crate) fn tag_character(tag: Tag) -> u8
    ensures { result ≡ tags.tag_character tag }
{
    match tag {
        Tag::Header => b'0',
        Tag::Entry(Kind::Absolute) => b'1',
        Tag::Entry(Kind::Relocatable) => b'2',
        Tag::Reference(Kind::Relocatable) => b'3',
        Tag::Reference(Kind::Absolute) => b'4',
        Tag::Definition(Kind::Relocatable) => b'5',
        Tag::Definition(Kind::Absolute) => b'6',
        Tag::Sum => b'7',
        Tag::IgnoredSum => b'8',
        Tag::Address(Kind::Absolute) => b'9',
        Tag::Address(Kind::Relocatable) => b'A',
        Tag::Word(Kind::Absolute) => b'B',
        Tag::Word(Kind::Relocatable) => b'C',
        Tag::EndOfLine => b'F',
        Tag::EndOfModule => b':',
    }
}

/// The tag that a module begins with.
fn opening_tag(form: TextForm) -> u8
    ensures { result ≡ tags.opening_tag form }
{
    match form {
        TextForm::Plain => tag_character(Tag::Header),
        TextForm::Compressed => 0x01,
    }
}

/// The tag of a character, or `None` where it is none.
#[tactic(auto, unfolding(object_defs::specs::Tags::tag_of))]
pub(crate) fn tag_of(form: TextForm, byte: u8) -> Option<Tag>
    ensures { result ≡ tags.tag_of form byte }
{
    if byte == opening_tag(form) {
        return Some(Tag::Header);
    }
    match byte {
        b'1' => Some(Tag::Entry(Kind::Absolute)),
        b'2' => Some(Tag::Entry(Kind::Relocatable)),
        b'3' => Some(Tag::Reference(Kind::Relocatable)),
        b'4' => Some(Tag::Reference(Kind::Absolute)),
        b'5' => Some(Tag::Definition(Kind::Relocatable)),
        b'6' => Some(Tag::Definition(Kind::Absolute)),
        b'7' => Some(Tag::Sum),
        b'8' => Some(Tag::IgnoredSum),
        b'9' => Some(Tag::Address(Kind::Absolute)),
        b'A' => Some(Tag::Address(Kind::Relocatable)),
        b'B' => Some(Tag::Word(Kind::Absolute)),
        b'C' => Some(Tag::Word(Kind::Relocatable)),
        b'F' => Some(Tag::EndOfLine),
        b':' => Some(Tag::EndOfModule),
        _ => None,
    }
}
