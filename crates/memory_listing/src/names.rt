//! The lines of names.

ghost use Rattle.std.specs.Prelude.{◌≡◌, map};
ghost use Rattle.bench_io.specs.Written.{Written};
ghost use Rattle.report_defs.specs.MemoryListing as spec;

use asm_text::Name;
use bench_io::{Failed, Sink, put_chunk};
use report_lines::{Line, append, append_word};

/// Writes the lines of names with their values.
pub(crate) fn put_names<O: Sink>(names: &[(Name, u16)], out: &mut O) -> Result<(), Failed>
    ensures { Written result (O.state out.old) (O.state out.new) (map spec.name_line names.now) }
{
    for named in names {
        put_chunk(out, name_line(&named.0, named.1).as_slice())?;
    }
    Ok(())
}

/// The line of a name with its value.
#[tactic(auto, using(std::proofs::Common::append_assoc))]
fn name_line(name: &Name, value: u16) -> Line
    ensures { result.items ≡ spec.name_line (name.now, value) }
{
    let mut line = Line::new();
    append(&mut line, name.as_bytes());
    line.push(b' ');
    append_word(&mut line, value);
    line.push(b'\n');
    line
}
