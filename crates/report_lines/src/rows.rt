//! Bytes in rows of 16.

ghost use Rattle.std.specs.Prelude.{◌≡◌, ◌≤◌, ◌<◌, ◌+◌, ◌*◌, ◌/◌, length};
ghost use Rattle.base_defs.specs.Lists.{row};
ghost use Rattle.report_defs.specs.Rows as rows;
ghost use Rattle.bench_io.specs.Written.{Written};

use crate::line::{Line, append_spaced, append_word};
use bench_io::{Failed, Sink, put_chunk};
use lane_scan::rows_equal;

/// Writes bytes in rows of 16, of which the first is at an address; a run of rows that equal the row before them is
/// an asterisk. Each line is written by one call, and no memory is taken.
///
/// # Errors
/// `Failed` means that a line could not be written. The sink then got a front of the rows, and its count of faults
/// rose.
pub fn put_rows<O: Sink>(first: u16, bytes: &[u8], out: &mut O) -> Result<(), Failed>
    requires { first + length bytes.now ≤ 65536 }
    ensures { Written result (O.state out.old) (O.state out.new) (rows.rows_lines first bytes.now) }
{
    for number in 0..bytes.len() / 16 {
        put_row(first, bytes, number, out)?;
    }
    Ok(())
}

/// Writes what a dump shows for the row with a number.
#[tactic(auto, using(bench_io::proofs::Writes::wrote_none))]
fn put_row<O: Sink>(first: u16, bytes: &[u8], number: usize, out: &mut O) -> Result<(), Failed>
    requires place { first + length bytes.now ≤ 65536 }
    requires number { number < length bytes.now / 16 }
    ensures { Written result (O.state out.old) (O.state out.new) (rows.row_lines first bytes.now number) }
{
    if !is_repeated(bytes, number) {
        let line = row_line(first + (16 * number) as u16, row(bytes, number));
        return put_chunk(out, line.as_slice());
    }
    if is_repeated(bytes, number - 1) {
        return Ok(());
    }
    put_chunk(out, b"*\n")
}

/// A row by its address and its bytes.
#[tactic(auto, using(std::proofs::Common::append_assoc))]
fn row_line(address: u16, bytes: &[u8]) -> Line
    requires { length bytes.now ≤ 16 }
    ensures { result.items ≡ rows.row_line address bytes.now }
{
    let mut line = Line::new();
    append_word(&mut line, address);
    append_spaced(&mut line, bytes);
    line.push(b'\n');
    line
}

/// Whether a row equals the row before it.
fn is_repeated(bytes: &[u8], number: usize) -> bool
    requires { number < length bytes.now / 16 }
    ensures { result ≡ rows.is_repeated bytes.now number }
{
    number > 0 && rows_equal(bytes, number - 1, number)
}

/// The row of 16 bytes with a number.
fn row(bytes: &[u8], number: usize) -> &[u8]
    requires { number < length bytes.now / 16 }
    ensures row { result.now ≡ row bytes.now number }
    ensures size { length result.now ≡ 16 }
{
    &bytes[16 * number..][..16]
}
