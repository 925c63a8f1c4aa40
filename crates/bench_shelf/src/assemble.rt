//! A source with the files that it copies as a module.

ghost use Rattle.std.specs.Prelude.{◌≤◌, IfSome, IfErr, OnOk, length};
ghost use Rattle.shelf_defs.specs.Copied.{most_bytes, largest_input};
ghost use Rattle.shelf_defs.specs.Assembly.{module_of_files};
ghost use Rattle.bench_shelf.specs.CopyAnswers.{GivesCopied};
ghost use Rattle.bench_shelf.specs.Causes.{CountsGrew, ShelfCauses, ReadWithinLimit};
ghost use Rattle.bench_shelf.specs.Answered.{Answered};

use crate::copy_error::CopyError;
use crate::copying::Copying;
use crate::shelf::Shelf;
use object_tags::Module;
use std::alloc::Global;

/// How deep files are copied.
pub(crate) const DEEPEST: u32 = 4;

/// Assembles a source of at most 1,048,576 bytes with the files of a shelf that it copies. By the answers of the
/// shelf, the module is the one of the copied lines as one text, each line ended by a carriage return and a line feed.
/// Lines after the first END line of any file are not read. The shelf is asked for a file where the source copies one
/// by the answers before, in the order of the lines, and for no other, also where the source is refused. Of each file
/// that is given all bytes are taken, and of one that is too large one byte more than the 262,144 that it may have.
///
/// # Errors
/// `At` carries the first line that is refused, in the order in which the lines are copied: because it cannot be
/// copied or by the first checks; else the first that the second checks refuse. `Missing` comes only where the shelf's
/// count of misses rose. `TooLarge` comes exactly where more than 262,144 bytes of one file were taken, the last that
/// was asked for. `Fault` comes only where the shelf's count of faults rose, at the file that was asked for last, and
/// `Memory` is out of memory. What the shelf gave before an error stays taken.
pub fn copy_assemble<F: Shelf>(
    alloc: Global,
    shelf: &mut F,
    text: &[u8],
) -> Result<Module, CopyError>
    requires { length text.now ≤ largest_input }
    ensures answered { Answered (F.shelf shelf.old) (F.shelf shelf.new) text.now result }
    // Where the shelf shows its files, that is the module of the source with these.
    ensures shown { IfSome (F.shelf shelf.old).files (λ files. GivesCopied result (module_of_files files text.now)) }
    ensures causes { IfErr result (λ error. ShelfCauses error (F.shelf shelf.old) (F.shelf shelf.new)) }
    // With `Ok` too no more bytes of one file were taken than it may have.
    ensures within { OnOk result (ReadWithinLimit most_bytes (F.shelf shelf.old) (F.shelf shelf.new)) }
    ensures later { CountsGrew (F.shelf shelf.old) (F.shelf shelf.new) }
{
    let mut copying = Copying::new(alloc);
    if let Err(error) = copying.copy_lines(shelf, DEEPEST, &None, text) {
        return Err(error);
    }
    copying.finish()
}
