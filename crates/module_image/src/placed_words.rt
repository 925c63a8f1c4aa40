//! The words of a module, in order of their places.

ghost use Rattle.std.specs.Prelude.{◌≡◌, ◌++◌, ◌<◌, IfOk, OnOk, option_to_list};
ghost use Rattle.asm_defs.specs.declared.location.Part.TheVariants as part;
ghost use Rattle.asm_defs.specs.Memory as spec;
ghost use Rattle.module_image.specs.Tables.{cell};

use crate::image::{Image, spot_at};
use crate::memory::{Table, WORDS};
use asm_defs::{Content, Part};
use object_defs::{Piece, Spot};
use object_tags::Pieces;
use std::alloc::{AllocError, Global};

/// The relocatable words in order of their places, then the absolute ones.
pub fn pieces(alloc: Global, image: &Image) -> Result<Pieces, AllocError>
    ensures { IfOk result (λ pieces. pieces
        ≡ spec.pieces_in (cell image.now.relocatable.cells.items) part.Relocatable
        ++ spec.pieces_in (cell image.now.absolute.cells.items) part.Absolute) }
{
    let mut pieces = Pieces::new(alloc);
    add_pieces(&mut pieces, Part::Relocatable, &image.relocatable)?;
    add_pieces(&mut pieces, Part::Absolute, &image.absolute)?;
    Ok(pieces)
}

/// Appends the words of a part.
#[tactic(auto, using(crate::proofs::PieceLaws::pieces_step, crate::proofs::PieceLaws::pieces_end), unfolding(asm_defs::specs::Memory::part_words))]
fn add_pieces(pieces: &mut Pieces, part: Part, table: &Table) -> Result<(), AllocError>
    ensures { OnOk result (pieces.new ≡ pieces.old ++ spec.pieces_in (cell table.now.cells.items) part) }
{
    for word in 0..WORDS {
        add_piece(pieces, part, table, word)?;
    }
    Ok(())
}

/// Appends a word of a part, where it has one.
fn add_piece(pieces: &mut Pieces, part: Part, table: &Table, word: u32) -> Result<(), AllocError>
    requires { word < 32768 }
    ensures { OnOk result (pieces.new ≡ pieces.old ++ spec.pieces_at (cell table.now.cells.items) part word) }
{
    let place = 2 * word as usize;
    match joined(table.cells[place], table.cells[place + 1]) {
        Some(found) => pieces.push(Piece {
            at: spot_at(part, 2 * word),
            word: found,
        }),
        None => Ok(()),
    }
}

/// The word of two bytes, of which one may be missing.
fn joined(high: Option<Content>, low: Option<Content>) -> Option<Spot>
    ensures { option_to_list result ≡ spec.joined high low }
{
    match (high, low) {
        (None, None) => None,
        (Some(Content::First(word)), _) => Some(word),
        (high, low) => Some(Spot::Absolute(u16::from_be_bytes([byte_in(high), byte_in(low)]))),
    }
}

/// A byte of a word; 0 where none is placed.
fn byte_in(content: Option<Content>) -> u8
    ensures { result ≡ spec.byte_in content }
{
    match content {
        Some(Content::Byte(byte)) => byte,
        Some(Content::First(_) | Content::Second) | None => 0,
    }
}
