//! The groups of a line, one after the other.

ghost use Rattle.std.specs.Prelude.{◌≡◌, ◌≤◌, ◌<◌, ◌^◌, ◌%◌, length, take, drop, sum, []};
ghost use Rattle.object_defs.specs.Groups as spec;
ghost use Rattle.object_laws.specs.Running.{groups_after};
ghost use Rattle.object_tags.specs.SeenGroups.{model_of_found, model_of_whole};

use crate::checksum::{complement, sum_of};
use crate::fields::{after, front, module_name_at, number_at, symbol_at};
use crate::group::{FoundGroup, Group};
use crate::parts::{Def, Ref};
use crate::spots::spot;
use crate::tags::tag_of;
use object_defs::{Tag, TagCause, TextForm};
use std::marker::Model;

/// The groups of a line that are left. Contracts see it as their list.
#[derive(Drop)]
pub(crate) struct Groups<'a> {
    form: TextForm,
    line: &'a [u8],
    // Where the next group begins.
    at: usize,
    // The sum of the characters before that place, in 16 bits.
    total: u16,
}

impl<'a> Model for Groups<'a> {
    ghost use Rattle.std.specs.Prelude.{◌≡◌, ℕ, List, ◌≤◌, ◌<◌, ◌^◌, ◌%◌, length, take, drop, sum};
    ghost use Rattle.object_defs.specs.Groups.{FoundGroup};
    ghost use Rattle.object_laws.specs.Running.{groups_after};

    ghost Value = { List FoundGroup };

    ghost view = { λ s. groups_after s.form (take s.at s.line.now) 0 (drop s.at s.line.now) };

    ghost invariant = { λ s. (s.at ≤ length s.line.now) × (length s.line.now < 2 ^ 32)
        × (s.total ≡ sum (take s.at s.line.now) % 65536) };
}

impl<'a> Groups<'a> {
    /// The groups of a line.
    pub(crate) fn new(form: TextForm, line: &'a [u8]) -> Groups<'a>
        requires { length line.now < 2 ^ 32 }
        ensures { result ≡ groups_after form [] 0 line.now }
    {
        Groups {
            form,
            line,
            at: 0,
            total: 0,
        }
    }

    /// The groups of a line from a place on, after the characters that are left there of the group before them.
    fn after(form: TextForm, line: &'a [u8], at: usize, total: u16, left: usize) -> Groups<'a>
        requires line { length line.now < 2 ^ 32 }
        requires at { at ≤ length line.now }
        requires total { total ≡ sum (take at line.now) % 65536 }
        ensures { result ≡ groups_after form (take at line.now) left (drop at line.now) }
    {
        let passed = front(after(line, at), left);
        Groups {
            form,
            line,
            at: at + passed.len(),
            total: total.wrapping_add(sum_of(passed)),
        }
    }
}

impl<'a> Iterator for Groups<'a> {
    ghost use Rattle.std.specs.Iterator.{YieldsFirstBy, item_count};
    ghost use Rattle.object_tags.specs.SeenGroups.{model_of_found};

    type Item = FoundGroup;

    ghost next_gives = { YieldsFirstBy model_of_found (λ s. s) };

    ghost remaining = { item_count (λ s. s) };

    fn next(&mut self) -> Option<FoundGroup> {
        if self.at == self.line.len() {
            return None;
        }
        let character = self.line[self.at];
        let next = self.at + 1;
        let total = self.total.wrapping_add(u16::from(character));
        let form = self.form;
        let tag = tag_at(form, self.at, character);
        let fields = after(self.line, next);
        let found = found_with(form, complement(total), character, tag, fields);
        *self = if found.ends_line() {
            Groups::new(form, &[])
        } else {
            Groups::after(form, self.line, next, total, found.size(form))
        };
        Some(found)
    }
}

/// The tag that a character is at a place of its line. What ends a module comes first in its line.
fn tag_at(form: TextForm, at: usize, character: u8) -> Option<Tag>
    ensures { result ≡ spec.tag_at form at character }
{
    if character == b':' && at != 0 {
        return None;
    }
    tag_of(form, character)
}

/// What is in the place of a group, in a line that has a checksum through the character there.
#[tactic(auto, unfolding(object_defs::specs::Groups::found_with))]
fn found_with(
    form: TextForm,
    computed: u16,
    character: u8,
    tag: Option<Tag>,
    fields: &[u8],
) -> FoundGroup
    ensures { model_of_found result ≡ spec.found_with form computed character tag fields.now }
{
    let Some(tag) = tag else {
        return FoundGroup::Broken {
            character,
            tag: None,
            cause: TagCause::BadTag(character),
        };
    };
    match group_of(form, computed, character, tag, fields) {
        Ok(group) => FoundGroup::Whole { character, group },
        Err(cause) => FoundGroup::Broken {
            character,
            tag: Some(tag),
            cause,
        },
    }
}

/// The group that a tag begins, by the fields after it.
fn group_of(
    form: TextForm,
    computed: u16,
    character: u8,
    tag: Tag,
    fields: &[u8],
) -> Result<Group, TagCause>
    ensures { model_of_whole result ≡ spec.group_of form computed character tag fields.now }
{
    Ok(match tag {
        Tag::Header => Group::Header {
            size: number_at(form, fields)?,
            name: module_name_at(form, character, fields)?,
        },
        Tag::Entry(kind) => Group::Entry(spot(kind, number_at(form, fields)?)),
        Tag::Reference(kind) => {
            let last = spot(kind, number_at(form, fields)?);
            let name = symbol_at(form, character, fields)?;
            Group::Referred(Ref { name, last })
        }
        Tag::Definition(kind) => {
            let value = spot(kind, number_at(form, fields)?);
            let name = symbol_at(form, character, fields)?;
            Group::Defined(Def { name, value })
        }
        Tag::Sum => compared(computed, number_at(form, fields)?)?,
        Tag::IgnoredSum => {
            number_at(form, fields)?;
            Group::IgnoredSum
        }
        Tag::Address(kind) => Group::Address(spot(kind, number_at(form, fields)?)),
        Tag::Word(kind) => Group::Word(spot(kind, number_at(form, fields)?)),
        Tag::EndOfLine => Group::EndOfLine,
        Tag::EndOfModule => Group::EndOfModule,
    })
}

/// A checksum, against the one that is computed.
fn compared(computed: u16, found: u16) -> Result<Group, TagCause>
    ensures { model_of_whole result ≡ spec.compared computed found }
{
    if found == computed {
        Ok(Group::Sum)
    } else {
        Err(TagCause::Checksum { found, computed })
    }
}
