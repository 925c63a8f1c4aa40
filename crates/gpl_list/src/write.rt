//! How a listing is written.

ghost use Rattle.std.specs.Prelude.{◌∷◌, []};
ghost use Rattle.bench_io.specs.Written.{Written};
ghost use Rattle.gpl_list_defs.specs.Text as spec;
ghost use Rattle.gpl_list.specs.Reading.{model_of_name, model_of_row};

use crate::rows::{NameRow, Row};
use crate::text::{address, first_bytes, further_bytes, further_line, line_text, name_line};
use bench_io::{Failed, Sink, put_chunk};
use report_lines::InLines;

impl InLines for Row {
    // its line, and the lines of its further bytes
    ghost lines = { λ row. spec.row_lines (model_of_row row) };

    fn put<O: Sink>(&self, out: &mut O) -> Result<(), Failed> {
        let bytes = self.bytes.as_slice();
        put_chunk(out, line_text(self).as_slice())?;
        put_further(
            address(self.address).wrapping_add(8),
            further_bytes(bytes),
            out,
        )
    }
}

impl InLines for NameRow {
    ghost lines = { λ row. spec.name_line (model_of_name row) ∷ [] };

    fn put<O: Sink>(&self, out: &mut O) -> Result<(), Failed> {
        put_chunk(out, name_line(self).as_slice())
    }
}

/// Writes rows of bytes, of which the first is at an address.
fn put_further<O: Sink>(at: u16, bytes: &[u8], out: &mut O) -> Result<(), Failed>
    ensures { Written result (O.state out.old) (O.state out.new) (spec.further_lines at bytes.now) }
{
    let mut place = at;
    let mut rest = bytes;
    while !rest.is_empty() {
        put_chunk(out, further_line(place, first_bytes(rest)).as_slice())?;
        place = place.wrapping_add(8);
        rest = further_bytes(rest);
    }
    Ok(())
}
