//! A source with the files that it copies, as far as it is listed.

ghost use Rattle.std.specs.Prelude.{◌≡◌, ◌≤◌, true, List, IfErr, length, is_some};
ghost use Rattle.shelf_defs.specs.Copied.{PlacedLine, largest_input};
ghost use Rattle.bench_shelf.specs.Causes.{CountsGrew};
ghost use Rattle.bench_shelf.specs.Leading.{Holds};
ghost use Rattle.bench_shelf.specs.Listed.{Finishes, Lists, ListAnswered, GivesNoReport, ListCauses, StopsAt};
ghost use Rattle.bench_shelf.specs.RefusedLines.{RefusesLine};

use crate::assemble::DEEPEST;
use crate::copy_error::{CopyCause, CopyError};
use crate::copying::Copying;
use crate::kept_line::KeptLine;
use crate::run::Run;
use crate::runs::place_of;
use crate::shelf::Shelf;
use asm_core::{AsmError, Finished};
use asm_text::Symbols;
use std::alloc::Global;

/// What comes after the lines of a source that the first checks accept.
#[derive(Drop)]
pub enum ListedEnding {
    /// Nothing: no line is refused. The names are what each name stands for.
    Whole(Symbols),
    /// The second checks refuse a line.
    After {
        /// What each name stands for.
        names: Symbols,
        /// The number of the refused line among all lines, from 1.
        number: u32,
        /// Its refusal.
        error: CopyError,
    },
    /// The next line is refused, by the first checks or since it cannot be copied, or the next file is too large.
    Before(CopyError),
}

/// A source with the files that it copies, as far as it is listed.
#[derive(Drop)]
pub struct ListedSource {
    /// The lines that the first checks accept, in the order in which they are copied.
    pub lines: Vec<KeptLine>,
    /// What comes after them.
    pub ending: ListedEnding,
}

/// The lines of a source of at most 1,048,576 bytes with the lines of the files of a shelf that it copies, as a listing
/// needs them, also where a line is refused. The shelf is asked for files as [`crate::copy_assemble`] asks it.
///
/// # Errors
/// `Fault` comes only where the shelf's count of faults rose, at the file that was asked for last, and `Memory` is out
/// of memory. There is no other.
pub fn copy_listed<F: Shelf>(
    alloc: Global,
    shelf: &mut F,
    text: &[u8],
) -> Result<ListedSource, CopyError>
    requires { length text.now ≤ largest_input }
    ensures answered { ListAnswered Lists (F.shelf shelf.old) (F.shelf shelf.new) text.now result }
    ensures no_report { IfErr result GivesNoReport }
    ensures causes { ListCauses result (F.shelf shelf.old) (F.shelf shelf.new) }
    ensures later { CountsGrew (F.shelf shelf.old) (F.shelf shelf.new) }
{
    let mut copying = Copying::keeping(alloc);
    match copying.copy_lines(shelf, DEEPEST, &None, text) {
        Ok(()) => copying.listed(),
        Err(error) => copying.listed_before(error),
    }
}

/// A line that the second checks refuse.
pub(crate) struct RefusedLine {
    /// Its number among all lines, from 1.
    pub(crate) number: u32,
    /// Its refusal.
    pub(crate) error: CopyError,
}

/// The line that the second checks refuse, by the places of the lines.
fn refused_line(runs: &[Run], error: AsmError) -> Result<RefusedLine, CopyError>
    ensures { RefusesLine runs.now error result }
{
    match error {
        AsmError::At { line, cause } => Ok(RefusedLine {
            number: line,
            error: place_of(runs, line).refused(CopyCause::Asm(cause)),
        }),
        AsmError::Memory => Err(CopyError::Memory),
    }
}

impl Copying {
    /// The lines that were taken, by their second checks.
    fn listed(self) -> Result<ListedSource, CopyError>
        requires { is_some self.kept ≡ true }
        ensures finishes { (done : List PlacedLine) → (holds : Holds done self) →
            Finishes done holds.taken.lines result }
    {
        let Copying {
            builder,
            runs,
            kept,
            ..
        } = self;
        let lines = kept.unwrap();
        let Finished { module, names } = builder.finish_with_names();
        match module {
            Ok(_) => Ok(ListedSource {
                lines,
                ending: ListedEnding::Whole(names),
            }),
            Err(error) => match refused_line(runs.as_slice(), error) {
                Ok(RefusedLine { number, error }) => Ok(ListedSource {
                    lines,
                    ending: ListedEnding::After {
                        names,
                        number,
                        error,
                    },
                }),
                Err(error) => Err(error),
            },
        }
    }

    /// The lines that were taken before an error that the definitions give, or the error.
    fn listed_before(self, error: CopyError) -> Result<ListedSource, CopyError>
        requires { is_some self.kept ≡ true }
        ensures stops { StopsAt self.kept error result }
    {
        match error {
            CopyError::At { .. } | CopyError::TooLarge => Ok(ListedSource {
                lines: self.kept.unwrap(),
                ending: ListedEnding::Before(error),
            }),
            CopyError::Fault | CopyError::Memory => Err(error),
        }
    }
}
