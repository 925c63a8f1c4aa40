//! The places of lines. Those that come one after the other are kept as one run.

ghost use Rattle.std.specs.Prelude.{◌≡◌, ◌++◌, ◌∷◌, [], OnOk, IsTrue};
ghost use Rattle.shelf_defs.specs.Assembly.{place_of};
ghost use Rattle.bench_shelf.specs.CopyAnswers.{model_of_place, place_in};
ghost use Rattle.bench_shelf.specs.Runs.{places_of, ComesNext};

use crate::file_name::{FileName, same_file};
use crate::place::Place;
use crate::run::Run;
use std::alloc::AllocError;

impl Run {
    /// Whether a line of a file comes next after the lines.
    fn is_next(&self, file: &Option<FileName>, line: u32) -> bool
        ensures { IsTrue result → ComesNext self.now (place_in file.now line) }
    {
        self.line.checked_add(self.count) == Some(line)
            && self.count < u32::MAX
            && same_file(&self.file, file)
    }
}

/// Notes the place of one more line.
pub(crate) fn note_place(
    runs: &mut Vec<Run>,
    file: &Option<FileName>,
    line: u32,
) -> Result<(), AllocError>
    ensures { OnOk result (places_of runs.new.items
        ≡ places_of runs.old.items ++ model_of_place (place_in file.now line) ∷ []) }
{
    let count = runs.len();
    if count > 0 && runs[count - 1].is_next(file, line) {
        runs[count - 1].count += 1;
        return Ok(());
    }
    runs.push(Run {
        file: *file,
        line,
        count: 1,
    })?;
    Ok(())
}

/// The place of a line by its number among all lines, from 1.
pub(crate) fn place_of(runs: &[Run], number: u32) -> Place
    ensures { model_of_place result ≡ place_of (places_of runs.now) number }
{
    let mut left = number.saturating_sub(1);
    for run in runs {
        if left < run.count {
            return Place {
                file: run.file,
                line: run.line.saturating_add(left),
            };
        }
        left -= run.count;
    }
    Place {
        file: None,
        line: number,
    }
}
