//! Lines, written one by one.

ghost use Rattle.std.specs.Prelude.{◌≡◌, ◌∷◌, [], map};
ghost use Rattle.std.specs.List.{flat_map};
ghost use Rattle.bench_io.specs.Written.{Written};

use arrayvec::ArrayVec;
use bench_io::{Failed, Sink, put_chunk};

/// Something that is written as lines.
pub trait InLines {
    ghost use Rattle.std.specs.Prelude.{ℕ, List};

    // the lines
    ghost lines: { Self → List (List ℕ) };

    /// Writes the lines, each by one call.
    fn put<O: Sink>(&self, out: &mut O) -> Result<(), Failed>
        ensures { Written result (O.state out.old) (O.state out.new) (lines self.now) };
}

impl<const N: usize> InLines for ArrayVec<u8, N> {
    ghost lines = { λ line. line.items ∷ [] };

    fn put<O: Sink>(&self, out: &mut O) -> Result<(), Failed> {
        put_chunk(out, self.as_slice())
    }
}

impl InLines for Vec<u8> {
    ghost lines = { λ line. line.items ∷ [] };

    fn put<O: Sink>(&self, out: &mut O) -> Result<(), Failed> {
        put_chunk(out, self.as_slice())
    }
}

/// Writes the lines of some items, each line by one call.
pub fn put_items<T: InLines, O: Sink>(items: &[T], out: &mut O) -> Result<(), Failed>
    ensures { Written result (O.state out.old) (O.state out.new) (flat_map T.lines items.now) }
{
    for item in items {
        item.put(out)?;
    }
    Ok(())
}

/// Writes each of some lines by one call.
#[tactic(auto, using(std::proofs::lemmas::List::Concat::flat_map_single))]
pub fn put_lines<const N: usize, O: Sink>(
    lines: &[ArrayVec<u8, N>],
    out: &mut O,
) -> Result<(), Failed>
    ensures { Written result (O.state out.old) (O.state out.new) (map (λ line. line.items) lines.now) }
{
    put_items(lines, out)
}
