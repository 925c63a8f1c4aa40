//! Which command the words say, those over files among them.

ghost use Rattle.std.specs.Prelude.{◌≡◌, ◌∷◌, map, option_map, IfSome};
ghost use Rattle.report_defs.specs.Commands.{command_of};
ghost use Rattle.report_defs.specs.ProgramCommands as spec;
ghost use Rattle.workbench.specs.Asked.{model_of_command, model_of_over, IsWithin};

use crate::names::{FileNames, MOST_FILES};
use bench_shelf::FileName;
use command_words::{Words, command_name, read_command};
use report_defs::{Command, CommandName};
use watch_command::{WatchedItems, watch_words};

/// What only the program with files has.
#[derive(Drop)]
pub(crate) enum FileCommand {
    /// `asm`, whose source may copy files.
    AsmFiles,
    /// `link` with the names of files.
    LinkFiles(FileNames),
    /// `watch` with the most steps and what is watched.
    Watch {
        /// The most steps.
        limit: u32,
        /// What is watched.
        items: WatchedItems,
    },
}

/// What the words say.
#[derive(Drop)]
pub(crate) enum ProgramCommand {
    /// A command that only the program with files has.
    OverFiles(FileCommand),
    /// Another command, which reads no file.
    Plain(Command),
}

/// The command that the words say, or `None` where they are in no shape of one. It takes no memory.
pub(crate) fn read_program_command(words: &Words) -> Option<ProgramCommand>
    ensures command { option_map model_of_command result ≡ spec.program_command words.now }
    ensures within { IfSome result IsWithin }
{
    let (word, others) = words.as_slice().split_first()?;
    match command_name(word.as_slice())? {
        CommandName::Link => match others {
            [] => input_command(words),
            [first, others @ ..] => Some(ProgramCommand::OverFiles(link_command(first, others)?)),
        },
        CommandName::Watch => Some(ProgramCommand::OverFiles(watch_command(others)?)),
        _ => input_command(words),
    }
}

/// `link` with the names that a word and those after it say, where each says one and they are not too many.
#[tactic(auto, using(crate::proofs::NameLaws::many_names))]
fn link_command(first: &Vec<u8>, words: &[Vec<u8>]) -> Option<FileCommand>
    ensures { option_map model_of_over result
        ≡ spec.link_command (first.now.items ∷ map (λ word. word.items) words.now) }
{
    if words.len() >= MOST_FILES {
        return None;
    }
    let mut names = FileNames::one(FileName::read(first.as_slice())?);
    for word in words {
        names.push(FileName::read(word.as_slice())?);
    }
    Some(FileCommand::LinkFiles(names))
}

/// `watch` with what the words say.
fn watch_command(words: &[Vec<u8>]) -> Option<FileCommand>
    ensures { option_map model_of_over result ≡ spec.watch_command (map (λ word. word.items) words.now) }
{
    let (limit, items) = watch_words(words)?;
    Some(FileCommand::Watch { limit, items })
}

/// A command over one input.
fn input_command(words: &Words) -> Option<ProgramCommand>
    ensures command { option_map model_of_command result ≡ option_map spec.over_input (command_of words.now) }
    ensures within { IfSome result IsWithin }
{
    match read_command(words)? {
        Command::Asm => Some(ProgramCommand::OverFiles(FileCommand::AsmFiles)),
        command => Some(ProgramCommand::Plain(command)),
    }
}
