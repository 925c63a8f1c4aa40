//! The listing of linked memory.

ghost use Rattle.std.specs.Prelude.{◌≡◌, ◌++◌, codes};
ghost use Rattle.bench_io.specs.Written.{Written};
ghost use Rattle.report_defs.specs.MemoryListing as spec;
ghost use Rattle.link_loader.specs.View.{model_of_linked};

use crate::names::put_names;
use crate::rows::put_words;
use bench_io::{Failed, Sink, put_chunk};
use link_loader::Linked;
use report_lines::{Line, append, append_word};

/// Writes the listing of linked memory, line by line: the entry, the names with their values, and the words in rows.
pub fn put_memory<O: Sink>(linked: &Linked, out: &mut O) -> Result<(), Failed>
    ensures { Written result (O.state out.old) (O.state out.new) (spec.linked_lines (model_of_linked linked.now)) }
{
    put_chunk(out, entry_line(linked.entry()).as_slice())?;
    put_names(linked.names().as_slice(), out)?;
    put_words(linked, out)
}

/// The line of the entry.
#[tactic(auto, using(std::proofs::Common::append_assoc))]
fn entry_line(entry: u16) -> Line
    ensures { result.items ≡ spec.entry_line entry }
{
    let mut line = Line::new();
    append(&mut line, b"entry ");
    append_word(&mut line, entry);
    line.push(b'\n');
    line
}
