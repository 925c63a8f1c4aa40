//! Which command the words say, and how the program is called.

ghost use Rattle.std.specs.Prelude.{◌≡◌, ◌≤◌, map, option_map, IfSome};
ghost use Rattle.report_defs.specs.Commands as words;
ghost use Rattle.debug_report_defs.specs.declared.command.DebugCommand.TheVariants.{Gcounts, Grun, Gsteps, Steps};
ghost use Rattle.gpl_counts.specs.Counts.{most_shown_steps};
ghost use Rattle.debug_report_defs.specs.Words as spec;
ghost use Rattle.debug_report_defs.specs.Words.{KeepsLimit};

use command_words::{Words, name_in, number_word};
use debug_report_defs::{COMMANDS, DebugCommand, DebugName};
use gpl_counts::MOST_SHOWN_STEPS;
use report_defs::MOST_INSTRUCTIONS;

/// The command that the words say, or `None` if they are in no shape of one.
pub(crate) fn read_debug_command(words: &Words) -> Option<DebugCommand>
    ensures command { result ≡ spec.debug_command words.now }
    ensures limit { IfSome result KeepsLimit }
{
    let (word, others) = words.as_slice().split_first()?;
    command_on(name_in(&COMMANDS, word.as_slice())?, others)
}

/// A command with the words after its name.
fn command_on(name: DebugName, words: &[Vec<u8>]) -> Option<DebugCommand>
    ensures command { result ≡ spec.command_on (map (λ word. word.items) words.now) name }
    ensures limit { IfSome result KeepsLimit }
{
    match (name, words) {
        (DebugName::Glist, []) => Some(DebugCommand::Glist),
        (DebugName::List, []) => Some(DebugCommand::List),
        (DebugName::Grun, [word]) => grun_command(word.as_slice()),
        (DebugName::Gsteps, [word]) => gsteps_command(word.as_slice()),
        (DebugName::Gcounts, [word]) => gcounts_command(word.as_slice()),
        (DebugName::Steps, [word]) => steps_command(word.as_slice()),
        _ => None,
    }
}

/// `grun` with its number.
fn grun_command(word: &[u8]) -> Option<DebugCommand>
    ensures command { result ≡ option_map Grun (words.number_word most_shown_steps word.now) }
    ensures limit { IfSome result KeepsLimit }
{
    let limit = shown_steps(word)?;
    Some(DebugCommand::Grun { limit })
}

/// `gsteps` with its number.
fn gsteps_command(word: &[u8]) -> Option<DebugCommand>
    ensures command { result ≡ option_map Gsteps (words.number_word most_shown_steps word.now) }
    ensures limit { IfSome result KeepsLimit }
{
    let limit = shown_steps(word)?;
    Some(DebugCommand::Gsteps { limit })
}

/// `gcounts` with its number.
fn gcounts_command(word: &[u8]) -> Option<DebugCommand>
    ensures command { result ≡ option_map Gcounts (words.number_word most_shown_steps word.now) }
    ensures limit { IfSome result KeepsLimit }
{
    let limit = shown_steps(word)?;
    Some(DebugCommand::Gcounts { limit })
}

/// The number of steps that a word spells, within what the interpreter may make.
fn shown_steps(word: &[u8]) -> Option<u32>
    ensures number { result ≡ words.number_word most_shown_steps word.now }
    ensures limit { IfSome result (λ limit. limit ≤ most_shown_steps) }
{
    number_word(word, MOST_SHOWN_STEPS)
}

/// `steps` with its number.
fn steps_command(word: &[u8]) -> Option<DebugCommand>
    ensures command { result ≡ option_map Steps (words.number_word words.most_instructions word.now) }
    ensures limit { IfSome result KeepsLimit }
{
    let limit = number_word(word, MOST_INSTRUCTIONS)?;
    Some(DebugCommand::Steps { limit })
}

/// How the program is called.
#[tactic(auto, unfolding(debug_report_defs::specs::Words::debug_usage))]
pub(crate) fn usage() -> &'static [u8]
    ensures { result.now ≡ spec.debug_usage }
{
    b"usage: ti_debug glist|list|grun N|gsteps N|gcounts N|steps N\n"
}
