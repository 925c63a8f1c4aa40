//! A source and a sink that never fail.

ghost use Rattle.std.specs.Prelude.{◌≡◌, ◌<◌, ◌≤◌, ◌+◌, min, ℕ, List, [], ◌++◌, length, take, drop, vec_len, Option};
ghost use Rattle.std.specs.Prelude.{Some, None, IsOk, IsOkAnd, IfOk};
ghost use Rattle.base_defs.specs.Counts.{saturating_sum};
ghost use Rattle.bench_io.specs.Stream.{opened_once, empty_calls};

use crate::memory::copy_front;
use crate::{Failed, Sink, Source};
use std::marker::Model;

/// A source that gives the bytes of a list and never fails.
#[derive(Debug, Drop)]
pub struct SteadySource {
    bytes: Vec<u8>,
    position: usize,
    calls: u64,
    empty: u64,
}

impl Model for SteadySource {
    ghost use Rattle.std.specs.Prelude.{◌≤◌, [], drop, vec_len};
    ghost use Rattle.bench_io.specs.Memory.{Supply};

    ghost Value = { Supply };

    ghost view = { λ s. record {
      left = drop s.position s.bytes.items;
      calls = s.calls;
      taken = s.position;
      empty = s.empty;
      fails = [];
      faults = 0;
    } };

    ghost invariant = { λ s. s.position ≤ vec_len s.bytes };
}

impl SteadySource {
    /// A source of `bytes`.
    pub fn new(bytes: Vec<u8>) -> Self
        ensures { result ≡ record { left = bytes.items; calls = 0; taken = 0; empty = 0; fails = []; faults = 0 } }
    {
        SteadySource {
            bytes,
            position: 0,
            calls: 0,
            empty: 0,
        }
    }
}

impl Source for SteadySource {
    ghost state = { λ s. opened_once (Some s.left) s.calls s.taken s.empty 0 };

    ghost kept = { λ _. tt };

    fn take(&mut self, buffer: &mut [u8]) -> Result<usize, Failed>
        requires { 0 < length buffer.old }
        ensures steady { IsOk result }
        ensures count { IfOk result (λ count. count ≡ min (length buffer.old) (length self.old.left)) }
        ensures bytes { IfOk result (λ count. buffer.new ≡ take count self.old.left ++ drop count buffer.old) }
        ensures ok { IfOk result (λ count. self.new ≡ record self.old {
          left = drop count self.old.left;
          calls = saturating_sum self.old.calls 1;
          taken = saturating_sum self.old.taken count;
          empty = saturating_sum self.old.empty (empty_calls count);
        }) }
    {
        self.calls = self.calls.saturating_add(1);
        let count = copy_front(&self.bytes[self.position..], buffer);
        self.position += count;
        if count == 0 {
            self.empty = self.empty.saturating_add(1);
        }
        Ok(count)
    }
}

/// A sink that drops what it is given, shows nothing of it, and never fails.
#[derive(Debug, Drop)]
pub struct SteadySink {
    puts: u64,
}

impl Model for SteadySink {
    ghost use Rattle.bench_io.specs.Stream.{SinkCounts};

    ghost Value = { SinkCounts };

    ghost view = { λ s. record { puts = s.puts; faults = 0 } };
}

impl SteadySink {
    /// The sink.
    pub fn new() -> Self
        ensures { result ≡ record { puts = 0; faults = 0 } }
    {
        SteadySink { puts: 0 }
    }
}

impl Sink for SteadySink {
    ghost state = { λ s. record { held = None; puts = s.puts; faults = 0 } };

    fn put(&mut self, _bytes: &[u8]) -> Result<(), Failed>
        ensures steady { IsOk result }
        ensures puts { self.new ≡ record self.old { puts = saturating_sum self.old.puts 1 } }
    {
        self.puts = self.puts.saturating_add(1);
        Ok(())
    }
}
