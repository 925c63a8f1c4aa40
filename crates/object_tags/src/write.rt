//! A module as text.

ghost use Rattle.std.specs.Prelude.{◌≡◌, [], ◌∷◌, map, IfOk, IfSome, OnOk, Ok};
ghost use Rattle.std.specs.List.{AllByRecursion, concat};
ghost use Rattle.object_defs.specs.Modules.{HasText};
ghost use Rattle.object_defs.specs.Writing.{Placed, Group, definition_text, reference_text, entry_items};
ghost use Rattle.object_defs.specs.Writing.{written, written_lines};
ghost use Rattle.object_defs.specs.Reading.{read};
ghost use Rattle.object_defs.specs.Laws.{FitsSpot, FitsPiece, FitsDefinition, FitsReference};
ghost use Rattle.object_tags.specs.Seen.{model_of_def, model_of_ref, model_of_module};
ghost use Rattle.object_tags.specs.Lines.{Wrote, line_bytes};

use crate::group_text;
use crate::parts::{Def, Module, Ref};
use crate::writer::{ObjectLine, Writer};
use object_defs::{Piece, Spot};
use std::alloc::{AllocError, Global};

/// The text of a module: its lines, as `write_lines` gives them, one after the other. `read_modules` gives the module
/// back from it.
///
/// The module's words are at even places, and it has at most 32,768 words, 256 DEFs and 256 REFs.
///
/// # Errors
/// `AllocError` means that memory ran out.
pub fn write_module(alloc: Global, module: &Module) -> Result<Vec<u8>, AllocError>
    requires { HasText (model_of_module «module».now) }
    ensures text { IfOk result (λ text. text.items ≡ written (model_of_module «module».now)) }
    ensures read_again { IfOk result (λ text. read text.items ≡ Ok (model_of_module «module».now ∷ [])) }
{
    let lines = write_lines(alloc, module)?;
    let mut text = Vec::new(alloc);
    for line in lines.as_slice() {
        text.extend_from_slice(line.as_slice())?;
    }
    Ok(text)
}

/// The lines of the text of a module: lines of groups, each with its checksum and its number, and the line that ends
/// the module. `read_modules` gives the module back from them as one text.
///
/// The module's words are at even places, and it has at most 32,768 words, 256 DEFs and 256 REFs.
///
/// # Errors
/// `AllocError` means that memory ran out.
pub fn write_lines(alloc: Global, module: &Module) -> Result<Vec<ObjectLine>, AllocError>
    requires { HasText (model_of_module «module».now) }
    ensures lines { IfOk result (λ lines. line_bytes lines.items ≡ written_lines (model_of_module «module».now)) }
    ensures read_again { IfOk result
        (λ lines. read (concat (line_bytes lines.items)) ≡ Ok (model_of_module «module».now ∷ [])) }
{
    let mut writer = Writer::new(alloc);
    writer.put_group(&group_text::header_text(module.size, &module.name))?;
    put_pieces(&mut writer, module.pieces.as_slice())?;
    put_defs(&mut writer, module.defs.as_slice())?;
    put_refs(&mut writer, module.refs.as_slice())?;
    put_entry(&mut writer, module.entry)?;
    writer.finish()
}

fn put_pieces(writer: &mut Writer, pieces: &[Piece]) -> Result<(), AllocError>
    ensures wrote { OnOk result (Wrote (map Placed pieces.now) writer.old writer.new) }
    ensures fits { OnOk result (AllByRecursion FitsPiece pieces.now) }
{
    for piece in pieces {
        writer.put_word(*piece)?;
    }
    Ok(())
}

fn put_defs(writer: &mut Writer, defs: &[Def]) -> Result<(), AllocError>
    ensures wrote { OnOk result
        (Wrote (map (λ def. Group (definition_text (model_of_def def))) defs.now) writer.old writer.new) }
    ensures fits { OnOk result (AllByRecursion (λ def. FitsDefinition (model_of_def def)) defs.now) }
{
    for def in defs {
        writer.put_group(&group_text::definition_text(def))?;
    }
    Ok(())
}

fn put_refs(writer: &mut Writer, refs: &[Ref]) -> Result<(), AllocError>
    ensures wrote { OnOk result
        (Wrote (map (λ ref. Group (reference_text (model_of_ref ref))) refs.now) writer.old writer.new) }
    ensures fits { OnOk result (AllByRecursion (λ ref. FitsReference (model_of_ref ref)) refs.now) }
{
    for reference in refs {
        writer.put_group(&group_text::reference_text(reference))?;
    }
    Ok(())
}

fn put_entry(writer: &mut Writer, entry: Option<Spot>) -> Result<(), AllocError>
    ensures wrote { OnOk result (Wrote (entry_items entry) writer.old writer.new) }
    ensures fits { OnOk result (IfSome entry FitsSpot) }
{
    if let Some(entry) = entry {
        writer.put_group(&group_text::entry_text(entry))?;
    }
    Ok(())
}
