//! The listing of a source with the files that it copies.

ghost use Rattle.std.specs.Prelude.{◌≡◌, ◌≤◌, ◌-◌, List, IfOk, IfErr, length, take};
ghost use Rattle.shelf_defs.specs.Copied.{largest_input};
ghost use Rattle.bench_io.specs.Written.{Written};
ghost use Rattle.bench_shelf.specs.Causes.{CountsGrew};
ghost use Rattle.bench_shelf.specs.Listed.{GivesNoReport, ListAnswered, refused_in};
ghost use Rattle.asm_list.specs.Adding.{texts_in, all_rows};
ghost use Rattle.asm_list.specs.Listings.{rows_of, Lists, ListingCauses};

use crate::names::put_names;
use crate::shown::Lister;
use bench_io::{Failed, Sink};
use bench_shelf::{CopyError, KeptLine, ListedEnding, Shelf, copy_listed};
use report_lines::put_items;
use std::alloc::{AllocError, Global};

/// The listing of an assembler source with the files that it copies: the rows of its lines and of its names.
#[derive(Drop)]
pub struct AsmListing {
    // Each row ends with its line feed.
    pub(crate) rows: Vec<Vec<u8>>,
    pub(crate) refused: Option<CopyError>,
}

/// The listing of a source of at most 1,048,576 bytes with the files of a shelf that it copies. Of one that is refused
/// it has the lines before the refused one, with what they place where the second checks refuse it, and no names. The
/// shelf is asked for files as [`bench_shelf::copy_assemble`] asks it.
///
/// # Errors
/// `Fault` comes only where the shelf's count of faults rose, at the file that was asked for last, and `Memory` is out
/// of memory. There is no other.
pub fn list_source<F: Shelf>(
    alloc: Global,
    shelf: &mut F,
    source: &[u8],
) -> Result<AsmListing, CopyError>
    requires { length source.now ≤ largest_input }
    ensures answered { ListAnswered Lists (F.shelf shelf.old) (F.shelf shelf.new) source.now result }
    ensures no_report { IfErr result GivesNoReport }
    ensures causes { ListingCauses result (F.shelf shelf.old) (F.shelf shelf.new) }
    ensures later { CountsGrew (F.shelf shelf.old) (F.shelf shelf.new) }
{
    let listed = match copy_listed(alloc, shelf, source) {
        Ok(listed) => listed,
        Err(error) => return Err(error),
    };
    match all_rows(alloc, listed.lines.as_slice(), &listed.ending) {
        Ok(rows) => Ok(AsmListing {
            rows,
            refused: refused_by(&listed.ending),
        }),
        Err(_) => Err(CopyError::Memory),
    }
}

/// All rows of kept lines, by what comes after them.
fn all_rows(
    alloc: Global,
    lines: &[KeptLine],
    ending: &ListedEnding,
) -> Result<Vec<Vec<u8>>, AllocError>
    ensures { IfOk result (λ rows. texts_in rows.items ≡ all_rows lines.now ending.now) }
{
    let mut rows = Vec::with_capacity(alloc, lines.len())?;
    match ending {
        ListedEnding::Whole(names) => {
            let lister = Lister {
                alloc,
                names: Some(names),
            };
            lister.put_lines(lines, &mut rows)?;
            put_names(alloc, names, lines, &mut rows)?;
        }
        ListedEnding::After { names, number, .. } => {
            let lister = Lister {
                alloc,
                names: Some(names),
            };
            lister.put_lines(lines_before(lines, *number), &mut rows)?;
        }
        ListedEnding::Before(_) => {
            let lister = Lister { alloc, names: None };
            lister.put_lines(lines, &mut rows)?;
        }
    }
    Ok(rows)
}

/// The lines before the one with a number, from 1.
fn lines_before(lines: &[KeptLine], number: u32) -> &[KeptLine]
    ensures { result.now ≡ take (number - 1) lines.now }
{
    let count = number.saturating_sub(1) as usize;
    if count < lines.len() {
        return &lines[..count];
    }
    lines
}

/// What is refused, by what comes after the lines.
fn refused_by(ending: &ListedEnding) -> Option<CopyError>
    ensures { result ≡ refused_in ending.now }
{
    match ending {
        ListedEnding::Whole(_) => None,
        ListedEnding::After { error, .. } => Some(*error),
        ListedEnding::Before(error) => Some(*error),
    }
}

impl AsmListing {
    /// Writes the rows, each by one call. It takes no memory.
    ///
    /// # Errors
    /// `Failed` means that a row could not be written. The sink then got a front of the rows, and its count of faults
    /// rose.
    pub fn write<O: Sink>(&self, out: &mut O) -> Result<(), Failed>
        ensures { Written result (O.state out.old) (O.state out.new) (rows_of self.now) }
    {
        put_items(self.rows.as_slice(), out)
    }

    /// The error of the line that is refused, or that a file is too large, where one is.
    pub fn refused(&self) -> Option<CopyError>
        ensures { result ≡ self.now.refused }
    {
        self.refused
    }
}
