//! The places in a text or a line where something begins or ends.

ghost use Rattle.std.specs.Prelude.{◌≡◌, ◌+◌, ◌≤◌, length, map, if◌then◌else◌, Some, None, false};
ghost use Rattle.std.specs.Simd.Lanes.{chunk, mask_l};
ghost use Rattle.source_defs.specs.Characters.{is_line_feed};
ghost use Rattle.source_defs.specs.Fields as spec;
ghost use Rattle.source_defs.specs.Fields.{in_quotes};
ghost use Rattle.expression_defs.specs.Tokens as tokens;
ghost use Rattle.source_defs.specs.Least.{least_place};
ghost use Rattle.source_defs.specs.Lines.{feed_place};

use crate::characters::{is_blank, is_digit, is_letter_or_digit, is_line_feed, is_quote};
use crate::numbers::is_hexadecimal_digit;
use std::simd::prelude::*;

/// How many bytes are looked at together for a line feed.
const LANES: usize = 32;

/// From a place on, the first line feed, or the text's end.
#[tactic(auto, using(source_defs::proofs::LeastLaws::leasts))]
pub(crate) fn feed_place(text: &[u8], from: usize) -> usize
    requires { from ≤ length text.now }
    ensures { result ≡ feed_place text.now from }
{
    if from == text.len() || is_line_feed(text[from]) {
        return from;
    }
    let mut from = from;
    while text.len() - from >= LANES {
        let feeds = feeds_from(text, from);
        if feeds != 0 {
            return from + feeds.trailing_zeros() as usize;
        }
        from += LANES;
    }
    last_feed_place(text, from)
}

/// The line feeds among the bytes that are looked at together: a bit for each byte, the lowest for the first.
#[inline(always)]
fn feeds_from(text: &[u8], from: usize) -> u64
    requires { from + LANES ≤ length text.now }
    ensures { result ≡ mask_l (map is_line_feed (chunk from LANES text.now)) }
{
    u8x32::from_slice(&text[from..])
        .simd_eq(u8x32::splat(b'\n'))
        .to_bitmask()
}

/// The same, byte by byte.
#[tactic(auto, using(source_defs::proofs::LeastLaws::leasts))]
fn last_feed_place(text: &[u8], from: usize) -> usize
    requires { from ≤ length text.now }
    ensures { result ≡ feed_place text.now from }
{
    for at in from..text.len() {
        if is_line_feed(text[at]) {
            return at;
        }
    }
    text.len()
}

/// From a place on, the first byte that is no blank, or the line's end.
#[tactic(auto, using(source_defs::proofs::LeastLaws::leasts, source_defs::proofs::LeastLaws::least_bounds))]
pub(crate) fn word_start(line: &[u8], from: usize) -> usize
    requires { from ≤ length line.now }
    ensures place { result ≡ spec.word_start line.now from }
    ensures within { result ≤ length line.now }
{
    for at in from..line.len() {
        if !is_blank(line[at]) {
            return at;
        }
    }
    line.len()
}

/// From a place on, the first blank, or the line's end.
#[tactic(auto, using(source_defs::proofs::LeastLaws::leasts, source_defs::proofs::LeastLaws::least_bounds))]
pub(crate) fn word_end(line: &[u8], from: usize) -> usize
    requires { from ≤ length line.now }
    ensures place { result ≡ spec.word_end line.now from }
    ensures within { result ≤ length line.now }
{
    for at in from..line.len() {
        let byte = line[at];
        // Most bytes are above the blanks.
        if byte > b' ' {
            continue;
        }
        if is_blank(byte) {
            return at;
        }
    }
    line.len()
}

/// The end of an operand field: the first blank outside quotes, or the line's end.
#[tactic(auto, using(source_defs::proofs::LeastLaws::leasts, source_defs::proofs::Quotes::quoting))]
pub(crate) fn operand_end(line: &[u8], start: usize) -> usize
    requires { start ≤ length line.now }
    ensures { result ≡ spec.operand_end line.now start }
{
    for at in start..line.len() {
        let byte = line[at];
        // Most bytes are above the blanks and the quote.
        if byte > b'\'' {
            continue;
        }
        if is_blank(byte) {
            return at;
        }
        if is_quote(byte) {
            return quoting_end(line, start, at);
        }
    }
    line.len()
}

/// The same from a place on that is outside quotes, where no end is before it.
#[tactic(auto, using(source_defs::proofs::LeastLaws::leasts, source_defs::proofs::Quotes::quoting))]
fn quoting_end(line: &[u8], start: usize, from: usize) -> usize
    requires order { start ≤ from }
    requires within { from ≤ length line.now }
    requires apart { in_quotes line.now start from ≡ false }
    requires none_before { least_place (spec.ends_field line.now start) line.now from
        ≡ spec.operand_end line.now start }
    ensures { result ≡ spec.operand_end line.now start }
{
    let mut quoted = false;
    for at in from..line.len() {
        let byte = line[at];
        if is_blank(byte) && !quoted {
            return at;
        }
        if is_quote(byte) {
            quoted = !quoted;
        }
    }
    line.len()
}

/// From a place on, the first byte that is no digit, or the text's end.
#[tactic(auto, using(source_defs::proofs::LeastLaws::leasts, source_defs::proofs::LeastLaws::least_bounds))]
pub(crate) fn digits_end(text: &[u8], from: usize) -> usize
    requires { from ≤ length text.now }
    ensures place { result ≡ tokens.digits_end text.now from }
    ensures after { from ≤ result }
    ensures within { result ≤ length text.now }
{
    for at in from..text.len() {
        if !is_digit(text[at]) {
            return at;
        }
    }
    text.len()
}

/// From a place on, the first byte that is no hexadecimal digit, or the text's end.
#[tactic(auto, using(source_defs::proofs::LeastLaws::leasts, source_defs::proofs::LeastLaws::least_bounds))]
pub(crate) fn hexadecimal_end(text: &[u8], from: usize) -> usize
    requires { from ≤ length text.now }
    ensures place { result ≡ tokens.hexadecimal_end text.now from }
    ensures after { from ≤ result }
    ensures within { result ≤ length text.now }
{
    for at in from..text.len() {
        if !is_hexadecimal_digit(text[at]) {
            return at;
        }
    }
    text.len()
}

/// From a place on, the first byte that is no letter and no digit, or the text's end.
#[tactic(auto, using(source_defs::proofs::LeastLaws::leasts, source_defs::proofs::LeastLaws::least_bounds))]
pub(crate) fn name_end(text: &[u8], from: usize) -> usize
    requires { from ≤ length text.now }
    ensures place { result ≡ tokens.name_end text.now from }
    ensures after { from ≤ result }
    ensures within { result ≤ length text.now }
{
    for at in from..text.len() {
        if !is_letter_or_digit(text[at]) {
            return at;
        }
    }
    text.len()
}

/// The end of a quoted text that starts at a place, or `None` where it is not closed.
#[tactic(auto, using(source_defs::proofs::LeastLaws::leasts, source_defs::proofs::LeastLaws::least_bounds, source_defs::proofs::Quotes::quoting))]
pub(crate) fn text_end(text: &[u8], start: usize) -> Option<usize>
    requires { start ≤ length text.now }
    ensures { result ≡ (if in_quotes text.now start (tokens.text_end text.now start)
        then None else Some (tokens.text_end text.now start)) }
{
    let mut quoted = false;
    for at in start..text.len() {
        if is_quote(text[at]) {
            quoted = !quoted;
        } else if !quoted {
            return Some(at);
        }
    }
    if quoted { None } else { Some(text.len()) }
}
