//! Where bytes come from.

ghost use Rattle.std.specs.Prelude.{◌≡◌, ◌<◌, ◌≤◌, length, take, IfOk, OnErr};
ghost use Rattle.base_defs.specs.Counts.{saturating_sum, Rose};
ghost use Rattle.bench_io.specs.Stream.{SourceState, Gave, GaveMore, GaveNoMore, IsAtEnd, empty_calls};

use crate::Failed;

/// Where bytes come from, one piece after the other.
pub trait Source {
    /// The bytes that are left, if the source shows them; the counts of calls, of bytes given, of calls that gave
    /// no byte, and of faults; how many bytes were given since it was opened last, and the most that were given of one
    /// opening. No count falls.
    ghost state: { Self → SourceState };

    /// The type of what no call of `take` changes.
    ghost Kept: { Type 0 } = { Unit {0} };

    /// What no call of `take` changes, as the other files of a shelf.
    ghost kept: { Self → Kept };

    /// Puts the next bytes into the front of `buffer` and says how many these are. 0 is the end. What is in
    /// `buffer` after them, and after a failure in all of it, is left open.
    ///
    /// # Errors
    /// `Failed` comes only where the count of faults rose in this call, and it rises in no other call. It takes no
    /// bytes.
    fn take(&mut self, buffer: &mut [u8]) -> Result<usize, Failed>
        requires { 0 < length buffer.old }

        ensures within { IfOk result (λ count. count ≤ length buffer.old) }
        ensures gave { IfOk result (λ count. Gave (state self.old).left (state self.new).left (take count buffer.new)) }
        // If the bytes are shown, 0 comes only at the end. Where nothing is left, `gave` allows 0 alone.
        ensures end { IfOk result (λ count. count ≡ 0 → IsAtEnd (state self.new).left) }
        ensures failed { OnErr result ((state self.new).left ≡ (state self.old).left) }

        ensures calls { (state self.new).calls ≡ saturating_sum (state self.old).calls 1 }
        ensures taken { IfOk result (λ count. (state self.new).taken ≡ saturating_sum (state self.old).taken count) }
        ensures taken_failed { OnErr result ((state self.new).taken ≡ (state self.old).taken) }

        ensures given { IfOk result (λ count. GaveMore count (state self.old) (state self.new)) }
        ensures given_failed { OnErr result (GaveNoMore (state self.old) (state self.new)) }

        ensures empty { IfOk result
            (λ count. (state self.new).empty ≡ saturating_sum (state self.old).empty (empty_calls count)) }
        ensures empty_failed { OnErr result ((state self.new).empty ≡ saturating_sum (state self.old).empty 1) }

        ensures faults { (state self.old).faults ≤ (state self.new).faults }
        ensures cause { OnErr result (Rose (state self.old).faults (state self.new).faults) }
        ensures no_fault { IfOk result (λ _. (state self.new).faults ≡ (state self.old).faults) }
        ensures kept { kept self.new ≡ kept self.old };
}
