//! The lines of an object text, as they are written.

ghost use Rattle.std.specs.Prelude.{◌≡◌, ◌≤◌, ◌<◌, ◌^◌, ◌+◌, [], ◌∷◌, ◌++◌, length, IfOk, OnOk};
ghost use Rattle.object_defs.specs.Digits as digits;
ghost use Rattle.object_defs.specs.Writing as writing;
ghost use Rattle.object_defs.specs.Laws.{FitsSpot, FitsPiece};
ghost use Rattle.object_tags.specs.Lines.{Wrote, line_bytes, whole, line_of};

use crate::checksum::checksum;
use crate::group_text::{GroupText, address_text, group, put_blanks, word_text};
use crate::spots::place_after;
use crate::tags::tag_character;
use arrayvec::ArrayVec;
use object_defs::{Piece, Spot, Tag};
use std::alloc::{AllocError, Global};

/// How many columns of a line groups may take.
const GROUP_COLUMNS: usize = 70;

/// The column up to which a line is padded.
const PADDED_COLUMNS: usize = 76;

/// A line of an object text, up to its line feed.
pub type ObjectLine = ArrayVec<u8, 81>;

/// The lines that are written, and the line that is being written.
#[derive(Drop)]
pub(crate) struct Writer {
    /// The lines that have ended.
    lines: Vec<ObjectLine>,
    /// The groups of the line.
    line: ArrayVec<u8, GROUP_COLUMNS>,
    /// The place after the last word of the line.
    next: Option<Spot>,
    /// The number of the line, modulo 10,000.
    number: u16,
}

impl Writer {
    /// Nothing is written.
    pub(crate) fn new(alloc: Global) -> Writer
        ensures lines { result.lines.items ≡ [] }
        ensures line { line_of result ≡ writing.empty_line }
        ensures number { result.number ≡ 1 }
    {
        Writer {
            lines: Vec::new(alloc),
            line: ArrayVec::new(),
            next: None,
            number: 1,
        }
    }

    /// Writes a group, on a new line where it does not fit.
    #[tactic(auto, using(std::proofs::lemmas::List::append_assoc), unfolding(object_defs::specs::Writing::lines_from))]
    pub(crate) fn put_group(&mut self, text: &GroupText) -> Result<(), AllocError>
        ensures { OnOk result (Wrote (writing.Group text.now.items ∷ []) self.old self.new) }
    {
        if self.line.len() + text.len() > GROUP_COLUMNS {
            self.end_line()?;
        }
        self.put(text);
        Ok(())
    }

    /// Writes a word, with an address group before it where it is not the place after the word before it on the line.
    #[tactic(auto, using(std::proofs::lemmas::List::append_assoc), unfolding(object_defs::specs::Writing::lines_from))]
    pub(crate) fn put_word(&mut self, piece: Piece) -> Result<(), AllocError>
        ensures wrote { OnOk result (Wrote (writing.Placed piece ∷ []) self.old self.new) }
        ensures fits { OnOk result (FitsPiece piece) }
    {
        if self.line.len() + piece_text(self.next, piece).len() > GROUP_COLUMNS {
            self.end_line()?;
        }
        let text = piece_text(self.next, piece);
        self.put(&text);
        self.next = Some(place_after(piece.at));
        Ok(())
    }

    /// Puts a group after the groups of the line, which has room for it.
    fn put(&mut self, text: &GroupText)
        requires { length self.old.line.items + length text.now.items ≤ 70 }
        ensures line { self.new.line.items ≡ self.old.line.items ++ text.now.items }
        ensures same { self.new ≡ record self.old { line = self.new.line } }
    {
        self.line.try_extend_from_slice(text.as_slice()).unwrap();
    }

    /// Ends the line, and begins the next one.
    fn end_line(&mut self) -> Result<(), AllocError>
        ensures lines { OnOk result (line_bytes self.new.lines.items
            ≡ line_bytes self.old.lines.items ++ writing.line_text self.old.number self.old.line.items ∷ []) }
        ensures line { OnOk result (line_of self.new ≡ writing.empty_line) }
        ensures number { OnOk result (self.new.number ≡ writing.number_after self.old.number) }
    {
        let line = summed(&self.line);
        self.put_numbered(&line)?;
        self.line.clear();
        self.next = None;
        Ok(())
    }

    /// Ends the last line, and writes the line that ends the module.
    #[tactic(auto, using(std::proofs::lemmas::List::append_assoc), unfolding(object_defs::specs::Writing::lines_from))]
    pub(crate) fn finish(mut self) -> Result<Vec<ObjectLine>, AllocError>
        ensures { IfOk result (λ lines. line_bytes lines.items ≡ whole self []) }
    {
        self.end_line()?;
        let mut end = ArrayVec::new();
        end.push(tag_character(Tag::EndOfModule));
        self.put_numbered(&end)?;
        Ok(self.lines)
    }

    /// Writes a line with its number, and counts it.
    fn put_numbered(&mut self, line: &ArrayVec<u8, PADDED_COLUMNS>) -> Result<(), AllocError>
        ensures lines { OnOk result (line_bytes self.new.lines.items
            ≡ line_bytes self.old.lines.items ++ writing.numbered self.old.number line.now.items ∷ []) }
        ensures number { OnOk result (self.new.number ≡ writing.number_after self.old.number) }
        ensures line { self.new.line ≡ self.old.line }
    {
        self.lines.push(numbered(self.number, line))?;
        self.number = number_after(self.number);
        Ok(())
    }
}

/// The number of the line after one.
fn number_after(number: u16) -> u16
    ensures { result ≡ writing.number_after number }
{
    ((u32::from(number) + 1) % 10_000) as u16
}

/// The text of a word after a place.
fn piece_text(next: Option<Spot>, piece: Piece) -> GroupText
    ensures text { result.items ≡ writing.item_text next (writing.Placed piece) }
    ensures fits { FitsSpot piece.word }
{
    let word = word_text(piece.word);
    match next {
        Some(next) if next == piece.at => word,
        _ => {
            let mut text = address_text(piece.at);
            text.try_extend_from_slice(word.as_slice()).unwrap();
            text
        }
    }
}

/// The groups of a line, their checksum and the end of the line.
fn summed(groups: &ArrayVec<u8, GROUP_COLUMNS>) -> ArrayVec<u8, PADDED_COLUMNS>
    ensures { result.items ≡ writing.summed groups.now.items }
{
    let mut line = ArrayVec::new();
    line.try_extend_from_slice(groups.as_slice()).unwrap();
    line.push(tag_character(Tag::Sum));
    let sum = group(Tag::Sum, checksum(line.as_slice()));
    line.try_extend_from_slice(&sum.as_slice()[1..]).unwrap();
    line.push(tag_character(Tag::EndOfLine));
    line
}

/// A line padded with blanks, then its number and a line feed.
#[tactic(auto, using(std::proofs::Common::append_assoc))]
fn numbered(number: u16, line: &ArrayVec<u8, PADDED_COLUMNS>) -> ObjectLine
    ensures { result.items ≡ writing.numbered number line.now.items }
{
    let mut text = ObjectLine::new();
    text.try_extend_from_slice(line.as_slice()).unwrap();
    put_blanks(&mut text, PADDED_COLUMNS - line.len());
    text.try_extend_from_slice(&decimal(number)).unwrap();
    text.push(b'\n');
    text
}

/// Four decimal digits.
#[tactic(auto, unfolding(object_defs::specs::Digits::four_digits))]
fn decimal(number: u16) -> [u8; 4]
    ensures { result ≡ digits.four_digits number }
{
    [
        b'0' + (number / 1000 % 10) as u8,
        b'0' + (number / 100 % 10) as u8,
        b'0' + (number / 10 % 10) as u8,
        b'0' + (number % 10) as u8,
    ]
}
