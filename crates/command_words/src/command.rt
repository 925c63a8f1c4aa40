//! Which command the words say.

ghost use Rattle.std.specs.Prelude.{◌≡◌, ◌≤◌, map, IfSome};
ghost use Rattle.source_defs.specs.Names.{same_text};
ghost use Rattle.report_defs.specs.CommandTables.{command_named};
ghost use Rattle.report_defs.specs.Commands as spec;
ghost use Rattle.report_defs.specs.Commands.{KeepsLimit};

use crate::numbers::{address_word, number_word};
use crate::words::Words;
use report_defs::{COMMANDS, Command, CommandName, MOST_BLOCKS, MOST_INSTRUCTIONS, MOST_STEPS};

/// The command that the words say, or `None` where they are in no shape of one.
pub fn read_command(words: &Words) -> Option<Command>
    ensures command { result ≡ spec.command_of words.now }
    ensures limit { IfSome result KeepsLimit }
{
    let (word, others) = words.as_slice().split_first()?;
    command_on(command_name(word.as_slice())?, others)
}

/// The command of `ti_bench` that a word names.
pub fn command_name(word: &[u8]) -> Option<CommandName>
    ensures { result ≡ command_named spec.commands word.now }
{
    name_in(&COMMANDS, word)
}

/// The command that a word names in a table of commands.
pub fn name_in<N: Copy>(mut table: &[(&[u8], &[u8], N)], word: &[u8]) -> Option<N>
    ensures { result ≡ command_named (map (λ row. (row.0.now, row.1.now, row.2)) table.entry.now) word.now }
{
    while let [row, rest @ ..] = table {
        if is_same(word, row.0) {
            return Some(row.2);
        }
        table = rest;
    }
    None
}

/// Whether a word is a name.
fn is_same(word: &[u8], name: &[u8]) -> bool
    ensures { result ≡ same_text word.now name.now }
{
    word == name
}

/// A command with the words after its name.
fn command_on(name: CommandName, words: &[Vec<u8>]) -> Option<Command>
    ensures command { result ≡ spec.command_on (map (λ word. word.items) words.now) name }
    ensures limit { IfSome result KeepsLimit }
{
    match words {
        [] => command_alone(name),
        [word] => command_with(name, word.as_slice()),
        _ => None,
    }
}

/// A command of one word.
fn command_alone(name: CommandName) -> Option<Command>
    ensures command { result ≡ spec.command_alone name }
    ensures limit { IfSome result KeepsLimit }
{
    match name {
        CommandName::Asm => Some(Command::Asm),
        CommandName::Gasm => Some(Command::Gasm),
        CommandName::Link => Some(Command::Link),
        CommandName::Interp => Some(Command::Interp),
        _ => None,
    }
}

/// A command with a word after its name.
fn command_with(name: CommandName, word: &[u8]) -> Option<Command>
    ensures command { result ≡ spec.command_with name word.now }
    ensures limit { IfSome result KeepsLimit }
{
    Some(match name {
        CommandName::Exec => Command::Exec {
            limit: number_word(word, MOST_INSTRUCTIONS)?,
        },
        CommandName::Run => Command::Run {
            limit: number_word(word, MOST_STEPS)?,
        },
        CommandName::Trace => Command::Trace {
            limit: number_word(word, MOST_STEPS)?,
        },
        CommandName::Demo => demo_of(number_word(word, MOST_BLOCKS)?)?,
        CommandName::Dis => dis_at(address_word(word)?)?,
        CommandName::Gdis => Command::Gdis {
            at: address_word(word)?,
        },
        _ => return None,
    })
}

/// The command `demo` with a number, where that is not 0.
fn demo_of(number: u32) -> Option<Command>
    requires { number ≤ spec.most_blocks }
    ensures command { result ≡ spec.demo_of number }
    ensures limit { IfSome result KeepsLimit }
{
    if number == 0 {
        return None;
    }
    Some(Command::Demo { number })
}

/// The command `dis` with an address, where that is an even one.
fn dis_at(at: u16) -> Option<Command>
    ensures command { result ≡ spec.dis_at at }
    ensures limit { IfSome result KeepsLimit }
{
    if at % 2 != 0 {
        return None;
    }
    Some(Command::Dis { at })
}
