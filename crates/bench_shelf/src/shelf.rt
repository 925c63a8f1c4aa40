//! Where files are read from by their names.

ghost use Rattle.std.specs.Prelude.{◌≡◌, ◌≤◌, IfErr, OnOk, OnErr};
ghost use Rattle.bench_io.specs.Stream.{IsAtEnd};
ghost use Rattle.bench_shelf.specs.States.{ShelfState, SameFiles};
ghost use Rattle.bench_shelf.specs.Opening.{Opens, Refuses, KeepsOther, SameCounts, StartsAnew};

use crate::error::OpenError;
use crate::file_name::FileName;
use bench_io::Source;

/// Files by name, of which one at a time is open. The open file is a source: where none is open, it is at its end.
pub trait Shelf: Source {
    /// The open file as a source, with all that is counted of the files that were open; the counts of calls of
    /// `open_file` and of names that were missing; the names that it was asked for, where it keeps them; and the
    /// files, where it shows them. No count falls but the count of bytes of the file opened last, which starts
    /// anew where one is opened, and no call changes the files.
    ghost shelf: { Self → ShelfState };

    /// Opens a file in place of the one that was open. Its bytes are then left for `take`. The call is counted,
    /// whatever its answer.
    ///
    /// # Errors
    /// `Failed` comes only where the count of faults rose in this call, and `Missing` only where the count of misses
    /// rose, and exactly where the call did not fail and no file has the name. Neither count rises with another answer.
    /// Nothing is left then.
    fn open_file(&mut self, name: &FileName) -> Result<(), OpenError>
        ensures opened { OnOk result (Opens (shelf self.old).files name.now (shelf self.new).source.left) }
        ensures refused { IfErr result (λ error. Refuses error (shelf self.old) (shelf self.new) name.now) }
        ensures end { OnErr result (IsAtEnd (shelf self.new).source.left) }

        ensures counts { SameCounts (shelf self.old).source (shelf self.new).source }
        // Also where the call is refused.
        ensures anew { StartsAnew (shelf self.old) (shelf self.new) name.now }
        ensures faults { (shelf self.old).source.faults ≤ (shelf self.new).source.faults }
        ensures misses { (shelf self.old).misses ≤ (shelf self.new).misses }
        ensures no_fault { OnOk result ((shelf self.new).source.faults ≡ (shelf self.old).source.faults) }
        ensures no_miss { OnOk result ((shelf self.new).misses ≡ (shelf self.old).misses) }
        ensures other { IfErr result (λ error. KeepsOther error (shelf self.old) (shelf self.new)) }
        ensures files { (shelf self.new).files ≡ (shelf self.old).files };

    /// The open file is the shelf as a source.
    ghost source_is: { (it : Self) → Self.state it ≡ (shelf it).source };

    /// Reading it changes neither the files nor the names and counts of files that were asked for and of misses.
    ghost keeps: { (before after : Self) → Self.kept after ≡ Self.kept before
        → SameFiles (shelf before) (shelf after) };
}
