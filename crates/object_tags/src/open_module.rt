//! A module whose end is not read yet.

ghost use Rattle.std.specs.Prelude.{◌≡◌, ◌≤◌, OnOk};
ghost use Rattle.object_defs.specs.Reading as reading;
ghost use Rattle.object_laws.specs.Running as running;
ghost use Rattle.object_tags.specs.Answers.{model_of_open, Makes, Leaves};
ghost use Rattle.object_tags.specs.Seen.{model_of_module};
ghost use Rattle.object_tags.specs.SeenGroups.{model_of_group, model_of_found};

use crate::error::Failure;
use crate::group::{FoundGroup, Group};
use crate::lists::{Defs, Pieces, Refs};
use crate::module_name::ModuleName;
use crate::parts::Module;
use crate::spots::{even, place_after};
use object_defs::{Piece, Spot, Tag, TagCause};
use std::alloc::{AllocError, Global};

/// The most modules of a text.
const MOST_MODULES: usize = 64;

/// The most words of a module.
pub const MOST_WORDS: usize = 32_768;

/// The most DEFs, and the most REFs, of a module.
pub const MOST_NAMES: usize = 256;

/// What the groups of a module say so far.
#[derive(Drop)]
pub(crate) struct OpenModule {
    /// The module.
    pub(crate) found: Module,
    /// The place of the next word.
    pub(crate) load: Spot,
}

impl OpenModule {
    /// The module that a group begins, where some modules have ended.
    #[tactic(auto, unfolding(object_laws::specs::Running::begun))]
    pub(crate) fn begin(
        alloc: Global,
        ended: usize,
        found: FoundGroup,
    ) -> Result<OpenModule, Failure>
        ensures { Makes model_of_open result (running.begun ended (model_of_found found)) }
    {
        is_allowed_first(ended, found.character(), found.tag())?;
        match found.group()? {
            Group::Header { size, name } => Ok(OpenModule::new(alloc, size, name)),
            _ => Err(Failure::Cause(TagCause::BadTag(found.character()))),
        }
    }

    /// A module that says nothing yet.
    fn new(alloc: Global, size: u16, name: ModuleName) -> OpenModule
        ensures { model_of_open result ≡ running.opened size name }
    {
        OpenModule {
            found: Module {
                name,
                size,
                pieces: Pieces::new(alloc),
                defs: Defs::new(alloc),
                refs: Refs::new(alloc),
                entry: None,
            },
            load: Spot::Relocatable(0),
        }
    }

    /// Takes one more group.
    #[tactic(auto, unfolding(object_laws::specs::Running::more))]
    pub(crate) fn take_group(&mut self, found: FoundGroup) -> Result<(), Failure>
        ensures { Leaves result (model_of_open self.new)
            (running.more (model_of_open self.old) (model_of_found found)) }
    {
        self.is_allowed_after(found.character(), found.tag())?;
        self.grow(found.group()?)?;
        Ok(())
    }

    /// The tag, where it may come after the groups of the module.
    fn is_allowed_after(&self, character: u8, tag: Option<Tag>) -> Result<Tag, TagCause>
        ensures { result ≡ reading.is_allowed_after (model_of_module self.now.found) character tag }
    {
        match tag {
            None | Some(Tag::Header) => Err(TagCause::BadTag(character)),
            Some(Tag::Entry(_)) if self.found.entry.is_some() => Err(TagCause::BadTag(character)),
            Some(Tag::Reference(_)) if self.found.refs.as_slice().len() >= MOST_NAMES => {
                Err(TagCause::TooMany)
            }
            Some(Tag::Definition(_)) if self.found.defs.as_slice().len() >= MOST_NAMES => {
                Err(TagCause::TooMany)
            }
            Some(Tag::Word(_)) if self.found.pieces.as_slice().len() >= MOST_WORDS => {
                Err(TagCause::TooMany)
            }
            Some(tag) => Ok(tag),
        }
    }

    /// Adds what a group says.
    fn grow(&mut self, group: Group) -> Result<(), AllocError>
        ensures { OnOk result (model_of_open self.new ≡ running.grown (model_of_open self.old) (model_of_group group)) }
    {
        match group {
            Group::Entry(at) => self.found.entry = Some(at),
            Group::Referred(reference) => self.found.refs.push(reference)?,
            Group::Defined(def) => self.found.defs.push(def)?,
            Group::Address(at) => self.load = even(at),
            Group::Word(word) => {
                self.found.pieces.push(Piece {
                    at: self.load,
                    word,
                })?;
                self.load = place_after(self.load);
            }
            Group::Header { .. }
            | Group::Sum
            | Group::IgnoredSum
            | Group::EndOfLine
            | Group::EndOfModule => {}
        }
        Ok(())
    }
}

/// The tag, where it may begin a module and some modules have ended.
fn is_allowed_first(ended: usize, character: u8, tag: Option<Tag>) -> Result<Tag, TagCause>
    ensures { result ≡ reading.is_allowed_first ended character tag }
{
    match tag {
        Some(Tag::Header) if ended >= MOST_MODULES => Err(TagCause::TooMany),
        Some(Tag::Header) => Ok(Tag::Header),
        _ => Err(TagCause::BadTag(character)),
    }
}
