//! Where the bytes of a report go.

ghost use Rattle.std.specs.Prelude.{◌≡◌, ◌≤◌, OnOk, OnErr};
ghost use Rattle.base_defs.specs.Counts.{saturating_sum, Rose};
ghost use Rattle.bench_io.specs.Stream.{SinkState, Grew, GrewByPrefix};

use crate::Failed;

/// Where bytes go, one piece after the other.
pub trait Sink {
    /// The bytes that it holds, if the sink shows them, and the counts of calls and of faults. Neither falls.
    ghost state: { Self → SinkState };

    /// Appends all of `bytes`.
    ///
    /// # Errors
    /// `Failed` comes only where the count of faults rose in this call, and it rises in no other call. A front of
    /// `bytes` was then appended, which may be empty or all of it.
    fn put(&mut self, bytes: &[u8]) -> Result<(), Failed>
        ensures put { OnOk result (Grew (state self.old).held (state self.new).held bytes.now) }
        ensures failed { OnErr result (GrewByPrefix (state self.old).held (state self.new).held bytes.now) }

        ensures puts { (state self.new).puts ≡ saturating_sum (state self.old).puts 1 }
        ensures faults { (state self.old).faults ≤ (state self.new).faults }
        ensures cause { OnErr result (Rose (state self.old).faults (state self.new).faults) }
        ensures no_fault { OnOk result ((state self.new).faults ≡ (state self.old).faults) };
}
