//! The rows of words.

ghost use Rattle.std.specs.Prelude.{◌≡◌, ◌≤◌, ◌<◌, ◌^◌, ◌+◌, ◌*◌, ◌-◌, ◌++◌, length, take, drop};
ghost use Rattle.std.specs.List.{flat_map};
ghost use Rattle.std.specs.FinMap.{entries, len};
ghost use Rattle.arrayvec.specs.ArrayVec.{array_vec_len};
ghost use Rattle.bench_io.specs.Written.{Written};
ghost use Rattle.report_defs.specs.MemoryListing as spec;
ghost use Rattle.link_loader.specs.View.{model_of_linked};

use asm_text::word_digits;
use bench_io::{Failed, Sink, put_chunk};
use link_loader::Linked;
use report_lines::{Line, append, append_word};

/// The most words of a row after its first.
const MORE_WORDS: usize = 7;

/// Writes the words in rows: up to eight whose addresses follow each other.
pub(crate) fn put_words<O: Sink>(linked: &Linked, out: &mut O) -> Result<(), Failed>
    ensures { Written result (O.state out.old) (O.state out.new)
        (spec.word_rows (entries (model_of_linked linked.now).words)) }
{
    let mut belonging = 0;
    for index in 0..linked.len() {
        if belonging > 0 {
            belonging -= 1;
        } else {
            let (at, _) = linked.pair(index);
            belonging = following(linked, MORE_WORDS, u32::from(at) + 2, index + 1);
            let end = index + 1 + belonging;
            put_chunk(out, words_line(linked, index, end).as_slice())?;
        }
    }
    Ok(())
}

/// Up to how many words from a number on are at an address and at those that follow it.
fn following(linked: &Linked, most: usize, at: u32, index: usize) -> usize
    requires most { most ≤ 7 }
    requires at { at + 2 * most < 2 ^ 32 }
    requires index { index ≤ len (model_of_linked linked.now).words }
    ensures count { result ≡ spec.following most at (drop index (entries (model_of_linked linked.now).words)) }
    ensures most { result ≤ most }
    ensures within { index + result ≤ len (model_of_linked linked.now).words }
{
    if most == 0 || index == linked.len() {
        return 0;
    }
    let (there, _) = linked.pair(index);
    if u32::from(there) != at {
        return 0;
    }
    following(linked, most - 1, at + 2, index + 1) + 1
}

/// The line of the words from a number up to another, eight at most.
#[tactic(auto, using(std::proofs::Common::append_assoc))]
fn words_line(linked: &Linked, from: usize, end: usize) -> Line
    requires some { from < end }
    requires eight { end ≤ from + 8 }
    requires within { end ≤ len (model_of_linked linked.now).words }
    ensures { result.items
        ≡ spec.words_line (take (end - from) (drop from (entries (model_of_linked linked.now).words))) }
{
    let mut line = Line::new();
    let (at, _) = linked.pair(from);
    append_word(&mut line, at);
    append_words(&mut line, linked, from, end);
    line.push(b'\n');
    line
}

/// Appends the words from a number up to another, each after a blank.
fn append_words(line: &mut Line, linked: &Linked, from: usize, end: usize)
    requires room { array_vec_len line.old + 5 * (end - from) ≤ 127 }
    requires order { from ≤ end }
    requires within { end ≤ len (model_of_linked linked.now).words }
    ensures bytes { line.new.items ≡ line.old.items
        ++ flat_map spec.word_text (take (end - from) (drop from (entries (model_of_linked linked.now).words))) }
    ensures len { array_vec_len line.new ≡ array_vec_len line.old + 5 * (end - from) }
{
    for index in from..end {
        let (_, word) = linked.pair(index);
        line.push(b' ');
        append(line, &word_digits(word));
    }
}
