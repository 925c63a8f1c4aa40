//! The numbers and the lines of the blocks.

ghost use Rattle.std.specs.Prelude.{◌≡◌, ◌≤◌, ◌+◌, ◌%◌, ◌++◌, length};
ghost use Rattle.arrayvec.specs.ArrayVec.{array_vec_len};
ghost use Rattle.report_defs.specs.DemoText as spec;

use asm_text::byte_digits;
use report_lines::{Line, append, append_word};

/// The number after a number.
pub(crate) fn next_number(number: u32) -> u16
    ensures { result ≡ spec.next_number number }
{
    ((u64::from(number) * 25173 + 13849) % 65536) as u16
}

/// The line of a block, by its index and its number.
pub(crate) fn block_line(index: u32, number: u16) -> Line
    ensures text { result.items ≡ spec.block_line index number }
    ensures size { array_vec_len result ≤ 34 }
{
    match index % 4 {
        0 => add_line(number),
        1 => store_line(number),
        2 => move_line(number),
        _ => call_line(),
    }
}

/// Adds to a cell.
#[tactic(auto, using(std::proofs::Common::append_assoc), unfolding(report_defs::specs::DemoText::add_line))]
fn add_line(number: u16) -> Line
    ensures text { result.items ≡ spec.add_line number }
    ensures size { array_vec_len result ≤ 34 }
{
    let [high, _] = number.to_be_bytes();
    let mut line = Line::new();
    append(&mut line, b"       ADD @");
    append_word(&mut line, cell(number));
    append(&mut line, b",>");
    append(&mut line, &byte_digits(high));
    line.push(b'\n');
    line
}

/// Stores a word of cells in the video memory.
#[tactic(auto, using(std::proofs::Common::append_assoc), unfolding(report_defs::specs::DemoText::store_line))]
fn store_line(number: u16) -> Line
    ensures text { result.items ≡ spec.store_line number }
    ensures size { array_vec_len result ≤ 34 }
{
    let mut line = Line::new();
    append(&mut line, b"       DST V@");
    append_word(&mut line, number % 16384);
    append(&mut line, b",@");
    append_word(&mut line, cell(number));
    line.push(b'\n');
    line
}

/// Moves bytes of the program to the video memory.
#[tactic(auto, using(std::proofs::Common::append_assoc), unfolding(report_defs::specs::DemoText::move_line))]
fn move_line(number: u16) -> Line
    ensures text { result.items ≡ spec.move_line number }
    ensures size { array_vec_len result ≤ 34 }
{
    let mut line = Line::new();
    append(&mut line, b"       MOVE ");
    append_word(&mut line, number / 256);
    append(&mut line, b",V@");
    append_word(&mut line, number % 16384);
    append(&mut line, b",G@>6000\n");
    line
}

/// Calls the subroutine.
#[tactic(auto, unfolding(report_defs::specs::DemoText::call_line))]
fn call_line() -> Line
    ensures text { result.items ≡ spec.call_line }
    ensures size { array_vec_len result ≤ 34 }
{
    let mut line = Line::new();
    append(&mut line, b"       CALL SUB\n");
    line
}

/// The address of the cell that a number gives.
fn cell(number: u16) -> u16
    ensures { result ≡ 0x8300 + number % 64 }
{
    0x8300 + number % 64
}
