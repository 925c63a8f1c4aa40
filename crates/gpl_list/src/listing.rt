//! The listing of a source.

ghost use Rattle.std.specs.Prelude.{◌≡◌, ◌<◌, ◌^◌, ℕ, List, IfOk, length};
ghost use Rattle.expression_defs.specs.Layout.{assembled_lines};
ghost use Rattle.gpl_source_defs.specs.Locations.{Line};
ghost use Rattle.gpl_source_defs.specs.FirstChecks.{names};
ghost use Rattle.gpl_source_defs.specs.Programs.{assembled_line};
ghost use Rattle.bench_io.specs.Written.{Written};
ghost use Rattle.gpl_list_defs.specs.Text.{listing_lines};
ghost use Rattle.gpl_list_defs.specs.Listing.{listing_of, assembled_listing};
ghost use Rattle.gpl_list.specs.Reading.{Keeps};
ghost use Rattle.gpl_list.specs.Listings.{model_of_listing, refused_by};

use crate::read::ReadLines;
use crate::rows::{NameRow, Row};
use crate::second_pass::assemble_rows;
use bench_io::{Failed, Sink};
use gpl_asm::GplError;
use gpl_source_defs::GplCause;
use report_lines::put_items;
use std::alloc::{AllocError, Global};

/// The listing of a GPL source: its lines with their addresses and their bytes, and its names.
#[derive(Drop)]
pub struct GplListing {
    pub(crate) rows: Vec<Row>,
    pub(crate) names: Vec<NameRow>,
    pub(crate) refused: Option<Refused>,
}

/// A line of a source that is refused.
#[derive(Clone, Copy, Debug, PartialEq, Eq)]
pub struct Refused {
    /// The number of the line, from 1.
    pub line: u32,
    /// What is wrong with it.
    pub cause: GplCause,
}

/// The listing of a source of fewer than 2^32 bytes. Of one that is refused it has the lines before the refused one,
/// with their bytes where the second checks refuse it, and no names.
///
/// # Errors
/// `AllocError` means out of memory.
pub fn list_source(alloc: Global, text: &[u8]) -> Result<GplListing, AllocError>
    requires { length text.now < 2 ^ 32 }
    ensures { IfOk result (λ listing. model_of_listing listing ≡ listing_of text.now) }
{
    let mut read = ReadLines::new(alloc)?;
    match read.read(text) {
        Ok(()) => assembled_listing(read),
        Err(GplError::At { line, cause }) => Ok(GplListing {
            rows: read.rows,
            names: Vec::new(alloc),
            refused: Some(Refused { line, cause }),
        }),
        Err(GplError::Memory) => Err(AllocError),
    }
}

/// The listing of lines that the first checks accept.
fn assembled_listing(read: ReadLines) -> Result<GplListing, AllocError>
    requires { (texts : List (ℕ × List ℕ)) × (lines : List Line) × Keeps texts lines read }
    ensures { (texts : List (ℕ × List ℕ)) → (lines : List Line) → Keeps texts lines read →
        IfOk result (λ listing. model_of_listing listing
        ≡ assembled_listing texts lines (assembled_lines (assembled_line (names lines)) lines)) }
{
    let ReadLines {
        alloc,
        rows,
        names,
        builder,
    } = read;
    let mut assembled_lines = Vec::new(alloc);
    match assemble_rows(alloc, builder.names(), rows, &mut assembled_lines) {
        Ok(()) => Ok(GplListing {
            rows: assembled_lines,
            names,
            refused: None,
        }),
        Err(GplError::At { line, cause }) => Ok(GplListing {
            rows: assembled_lines,
            names: Vec::new(alloc),
            refused: Some(Refused { line, cause }),
        }),
        Err(GplError::Memory) => Err(AllocError),
    }
}

impl GplListing {
    /// Writes the rows and the names, each line by one call. It takes no memory.
    pub fn write<O: Sink>(&self, out: &mut O) -> Result<(), Failed>
        ensures { Written result (O.state out.old) (O.state out.new)
            (listing_lines (model_of_listing self.now).rows (model_of_listing self.now).names) }
    {
        put_items(self.rows.as_slice(), out)?;
        put_items(self.names.as_slice(), out)
    }

    /// The refused line, if one is refused.
    pub fn refused(&self) -> Option<Refused>
        ensures { refused_by result ≡ (model_of_listing self.now).refused }
    {
        self.refused
    }
}
