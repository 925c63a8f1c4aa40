//! What is in a line in the place of a group.

ghost use Rattle.std.specs.Prelude.{◌≡◌};
ghost use Rattle.object_defs.specs.Groups as spec;
ghost use Rattle.object_laws.specs.Running as running;
ghost use Rattle.object_tags.specs.SeenGroups.{model_of_group, model_of_found, model_of_whole};

use crate::fields::number_size;
use crate::module_name::ModuleName;
use crate::parts::{Def, Ref};
use crate::spots::kind_of;
use object_defs::{Spot, Tag, TagCause, TextForm};

/// A group: what its tag and its fields say.
#[derive(Clone, Copy)]
pub(crate) enum Group {
    /// The first group of a module.
    Header {
        /// How many bytes the module's relocatable code takes.
        size: u16,
        /// The module's name.
        name: ModuleName,
    },
    /// Where the module is entered.
    Entry(Spot),
    /// A name that another module defines.
    Referred(Ref),
    /// A name that the module defines.
    Defined(Def),
    /// The line's checksum, which agrees.
    Sum,
    /// A checksum that is ignored.
    IgnoredSum,
    /// The load address.
    Address(Spot),
    /// A word at the load address.
    Word(Spot),
    /// The end of the line.
    EndOfLine,
    /// The end of the module.
    EndOfModule,
}

/// What a line has in the place of a group.
#[derive(Clone, Copy)]
pub(crate) enum FoundGroup {
    /// A group.
    Whole {
        /// The character of its tag.
        character: u8,
        /// The group.
        group: Group,
    },
    /// No group.
    Broken {
        /// The character in the place of a tag.
        character: u8,
        /// The tag, if the character is one.
        tag: Option<Tag>,
        /// Why it begins no group.
        cause: TagCause,
    },
}

impl Group {
    /// The tag that the group begins with.
    fn tag(&self) -> Tag
        ensures { result ≡ spec.tag_of_group (model_of_group self.now) }
    {
        match self {
            Group::Header { .. } => Tag::Header,
            Group::Entry(at) => Tag::Entry(kind_of(*at)),
            Group::Referred(reference) => Tag::Reference(kind_of(reference.last)),
            Group::Defined(def) => Tag::Definition(kind_of(def.value)),
            Group::Sum => Tag::Sum,
            Group::IgnoredSum => Tag::IgnoredSum,
            Group::Address(at) => Tag::Address(kind_of(*at)),
            Group::Word(word) => Tag::Word(kind_of(*word)),
            Group::EndOfLine => Tag::EndOfLine,
            Group::EndOfModule => Tag::EndOfModule,
        }
    }

    /// Whether it is the last group of its line.
    fn is_last(&self) -> bool
        ensures { result ≡ spec.is_last (model_of_group self.now) }
    {
        matches!(self, Group::EndOfLine | Group::EndOfModule)
    }

    /// How many characters the group has after its tag.
    fn size(&self, form: TextForm) -> usize
        ensures { result ≡ spec.group_size form (model_of_group self.now) }
    {
        match self {
            Group::Header { .. } => number_size(form) + 8,
            Group::Referred(_) | Group::Defined(_) => number_size(form) + 6,
            Group::Entry(_) | Group::Sum | Group::IgnoredSum | Group::Address(_) | Group::Word(_) =>
                number_size(form),
            Group::EndOfLine | Group::EndOfModule => 0,
        }
    }
}

impl FoundGroup {
    /// The character in the place of a tag.
    pub(crate) fn character(&self) -> u8
        ensures { result ≡ spec.character_found (model_of_found self.now) }
    {
        match self {
            FoundGroup::Whole { character, .. } | FoundGroup::Broken { character, .. } =>
                *character,
        }
    }

    /// The tag, if the character is one.
    pub(crate) fn tag(&self) -> Option<Tag>
        ensures { result ≡ spec.tag_found (model_of_found self.now) }
    {
        match self {
            FoundGroup::Whole { group, .. } => Some(group.tag()),
            FoundGroup::Broken { tag, .. } => *tag,
        }
    }

    /// The group, or why there is none.
    pub(crate) fn group(&self) -> Result<Group, TagCause>
        ensures { model_of_whole result ≡ spec.group_found (model_of_found self.now) }
    {
        match self {
            FoundGroup::Whole { group, .. } => Ok(*group),
            FoundGroup::Broken { cause, .. } => Err(*cause),
        }
    }

    /// How many characters come after the tag.
    pub(crate) fn size(&self, form: TextForm) -> usize
        ensures { result ≡ spec.size_found form (model_of_found self.now) }
    {
        match self {
            FoundGroup::Whole { group, .. } => group.size(form),
            FoundGroup::Broken { .. } => 0,
        }
    }

    /// Whether no group of the line is looked for after it.
    pub(crate) fn ends_line(&self) -> bool
        ensures { result ≡ spec.ends_line (model_of_found self.now) }
    {
        match self {
            FoundGroup::Whole { group, .. } => group.is_last(),
            FoundGroup::Broken { .. } => true,
        }
    }

    /// Whether it ends a module.
    pub(crate) fn ends_module(&self) -> bool
        ensures { result ≡ running.ends_module (model_of_found self.now) }
    {
        match self {
            FoundGroup::Whole { group, .. } => matches!(group, Group::EndOfModule),
            FoundGroup::Broken { .. } => false,
        }
    }
}
