//! The lines of a text, one after the other.

ghost use Rattle.std.specs.Prelude.{◌≡◌, ◌≤◌, length};
ghost use Rattle.source_defs.specs.Lines as spec;

use crate::characters::is_carriage_return;
use crate::places::feed_place;
use source_defs::{Line, Span};
use std::marker::Model;

/// The lines of a text that are left. Contracts see it as their list.
#[derive(Debug, Drop)]
pub struct Lines<'a> {
    pub(crate) text: &'a [u8],
    // Where the next line begins.
    pub(crate) at: usize,
    // How many lines were given.
    pub(crate) given: u32,
}

impl<'a> Model for Lines<'a> {
    ghost use Rattle.std.specs.Prelude.{ℕ, List, ◌+◌, ◌<◌, ◌≤◌, ◌^◌, length, drop};
    ghost use Rattle.source_defs.specs.declared.text.Line.{Line};
    ghost use Rattle.source_defs.specs.Lines.{lines_from};

    ghost Value = { List Line };

    ghost view = { λ s. lines_from s.text.now (s.given + 1) s.at (drop s.at s.text.now) };

    ghost invariant = { λ s. (s.given ≤ s.at) × (s.at ≤ length s.text.now) × (length s.text.now < 2 ^ 32) };
}

impl<'a> Iterator for Lines<'a> {
    ghost use Rattle.std.specs.Iterator.{YieldsFirst, item_count};

    type Item = Line;

    ghost next_gives = { YieldsFirst (λ s. s) };

    ghost remaining = { item_count (λ s. s) };

    #[tactic(auto, using(source_defs::proofs::LineSteps::line_steps, source_defs::proofs::LeastLaws::least_bounds))]
    fn next(&mut self) -> Option<Line> {
        if self.at == self.text.len() {
            return None;
        }
        let start = self.at;
        let feed = feed_place(self.text, start);
        self.at = after(self.text, feed);
        self.given += 1;
        Some(Line {
            number: self.given,
            span: without_return(self.text, start, feed),
        })
    }
}

/// Where the next line begins, after one that goes up to a line feed or the text's end.
fn after(text: &[u8], feed: usize) -> usize
    requires { feed ≤ length text.now }
    ensures { result ≡ spec.after_feed text.now feed }
{
    if feed < text.len() { feed + 1 } else { feed }
}

/// The part up to a line feed or the text's end, without a carriage return before the line feed.
fn without_return(text: &[u8], start: usize, feed: usize) -> Span
    requires { feed ≤ length text.now }
    ensures { result ≡ spec.without_return text.now (start, feed) }
{
    if feed < text.len() && start < feed && is_carriage_return(text[feed - 1]) {
        Span {
            start,
            end: feed - 1,
        }
    } else {
        Span { start, end: feed }
    }
}
