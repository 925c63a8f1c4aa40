//! The source of the program.

ghost use Rattle.std.specs.Prelude.{◌≡◌, ◌≤◌, ◌+◌, ◌*◌, length, vec_len, IfOk};
ghost use Rattle.report_defs.specs.DemoText as spec;

use crate::block::{block_line, next_number};
use std::alloc::{AllocError, Global};

/// What comes after the blocks: the program leaves, and its subroutine follows.
const LAST_LINES: &[u8] = b"       EXIT\nSUB    XOR @>8340,>5A\n       RTN\n       END >6000\n";

/// The GPL source that is made from a number: as many blocks of one line, and then the end of the program and its
/// subroutine. Each block has a number, which comes from the number of the block before it, the first from this number.
///
/// # Errors
/// `AllocError` comes if memory runs out.
pub fn demo_text(alloc: Global, number: u32) -> Result<Vec<u8>, AllocError>
    ensures text { IfOk result (λ text. text.items ≡ spec.demo_text number) }
    ensures size { IfOk result (λ text. vec_len text ≤ 34 * number + 62) }
{
    let mut text = Vec::new(alloc);
    let mut block_number = next_number(number);
    for index in 0..number {
        text.extend_from_slice(block_line(index, block_number).as_slice())?;
        block_number = next_number(u32::from(block_number));
    }
    text.extend_from_slice(last_lines())?;
    Ok(text)
}

/// The lines after the blocks.
#[tactic(auto, unfolding(report_defs::specs::DemoText::last_lines))]
fn last_lines() -> &'static [u8]
    ensures text { result.now ≡ spec.last_lines }
    ensures size { length result.now ≡ 62 }
{
    LAST_LINES
}
