//! A source and a sink in memory that fail at given calls.

ghost use Rattle.std.specs.Prelude.{◌≡◌, ◌⊎◌, ◌↔◌, ◌<◌, ◌≤◌, ◌+◌, ◌-◌, min, ℕ, List, [], ◌++◌, length, take, drop};
ghost use Rattle.std.specs.Prelude.{vec_len, vec_capacity, Option};
ghost use Rattle.std.specs.Prelude.{Some, IsErr, IfOk, OnOk, OnErr, Contains};
ghost use Rattle.base_defs.specs.Counts.{saturating_sum, Rose};
ghost use Rattle.bench_io.specs.Stream.{opened_once, empty_calls};

use crate::{Failed, Sink, Source};
use std::alloc::{AllocError, Global};
use std::marker::Model;

/// A source that gives the bytes of a list, as many at a time as there is room for, and fails at given calls.
#[derive(Debug, Drop)]
pub struct MemSource {
    bytes: Vec<u8>,
    position: usize,
    calls: u64,
    empty: u64,
    fails: Vec<u64>,
    faults: u64,
}

impl Model for MemSource {
    ghost use Rattle.std.specs.Prelude.{◌≤◌, drop, vec_len};
    ghost use Rattle.bench_io.specs.Memory.{Supply};

    ghost Value = { Supply };

    ghost view = { λ s. record {
      left = drop s.position s.bytes.items;
      calls = s.calls;
      taken = s.position;
      empty = s.empty;
      fails = s.fails.items;
      faults = s.faults;
    } };

    ghost invariant = { λ s. s.position ≤ vec_len s.bytes };
}

impl MemSource {
    /// A source of `bytes`, of which the calls whose numbers from 0 are in `fails` fail.
    pub fn new(bytes: Vec<u8>, fails: Vec<u64>) -> Self
        ensures { result
            ≡ record { left = bytes.items; calls = 0; taken = 0; empty = 0; fails = fails.items; faults = 0 } }
    {
        MemSource {
            bytes,
            position: 0,
            calls: 0,
            empty: 0,
            fails,
            faults: 0,
        }
    }

    /// How many calls have failed.
    pub fn faults(&self) -> u64
        ensures { result ≡ self.now.faults }
    {
        self.faults
    }
}

impl Source for MemSource {
    ghost state = { λ s. opened_once (Some s.left) s.calls s.taken s.empty s.faults };

    ghost kept = { λ _. tt };

    fn take(&mut self, buffer: &mut [u8]) -> Result<usize, Failed>
        requires { 0 < length buffer.old }
        ensures fails { IsErr result ↔ Contains self.old.fails self.old.calls }
        ensures failed { OnErr result (self.new ≡ record self.old {
          calls = saturating_sum self.old.calls 1;
          empty = saturating_sum self.old.empty 1;
          faults = saturating_sum self.old.faults 1;
        }) }
        ensures cause { OnErr result (Rose self.old.faults self.new.faults) }
        ensures count { IfOk result (λ count. count ≡ min (length buffer.old) (length self.old.left)) }
        ensures bytes { IfOk result (λ count. buffer.new ≡ take count self.old.left ++ drop count buffer.old) }
        ensures ok { IfOk result (λ count. self.new ≡ record self.old {
          left = drop count self.old.left;
          calls = saturating_sum self.old.calls 1;
          taken = saturating_sum self.old.taken count;
          empty = saturating_sum self.old.empty (empty_calls count);
        }) }
    {
        let call = self.calls;
        self.calls = call.saturating_add(1);
        if self.fails.contains(&call) {
            self.empty = self.empty.saturating_add(1);
            self.faults = self.faults.saturating_add(1);
            return Err(Failed);
        }
        let count = copy_front(&self.bytes[self.position..], buffer);
        self.position += count;
        if count == 0 {
            self.empty = self.empty.saturating_add(1);
        }
        Ok(count)
    }
}

/// Copies as many bytes from the front of one list to the front of another as both have room for.
pub fn copy_front(from: &[u8], to: &mut [u8]) -> usize
    ensures count { result ≡ min (length to.old) (length from.now) }
    ensures bytes { to.new ≡ take result from.now ++ drop result to.old }
{
    let count = to.len().min(from.len());
    to[..count].copy_from_slice(&from[..count]);
    count
}

/// A sink that holds what it is given, up to a size, and fails at given calls.
#[derive(Debug, Drop)]
pub struct MemSink {
    bytes: Vec<u8>,
    room: usize,
    calls: u64,
    fails: Vec<u64>,
    faults: u64,
}

impl Model for MemSink {
    ghost use Rattle.std.specs.Prelude.{◌≤◌, vec_len, vec_capacity};
    ghost use Rattle.bench_io.specs.Memory.{Store};

    ghost Value = { Store };

    ghost view = { λ s. record {
      held = s.bytes.items;
      room = s.room;
      calls = s.calls;
      fails = s.fails.items;
      faults = s.faults;
    } };

    ghost invariant = { λ s. (vec_len s.bytes ≤ s.room) × (s.room ≤ vec_capacity s.bytes) };
}

impl MemSink {
    /// An empty sink with room for `room` bytes, of which the calls whose numbers from 0 are in `fails` fail. It
    /// takes the memory for all its room here, and none later.
    ///
    /// # Errors
    /// `AllocError` means that memory ran out; `fails` is then given up.
    pub fn new(alloc: Global, room: usize, fails: Vec<u64>) -> Result<Self, AllocError>
        ensures { IfOk result
            (λ sink. sink ≡ record { held = []; room = room; calls = 0; fails = fails.items; faults = 0 }) }
    {
        Ok(MemSink {
            bytes: Vec::with_capacity(alloc, room)?,
            room,
            calls: 0,
            fails,
            faults: 0,
        })
    }

    /// The bytes that it holds.
    pub fn bytes(&self) -> &[u8]
        ensures { result.now ≡ self.now.held }
    {
        &self.bytes
    }

    /// How many calls have failed.
    pub fn faults(&self) -> u64
        ensures { result ≡ self.now.faults }
    {
        self.faults
    }
}

impl Sink for MemSink {
    ghost state = { λ s. record { held = Some s.held; puts = s.calls; faults = s.faults } };

    fn put(&mut self, bytes: &[u8]) -> Result<(), Failed>
        ensures fails { IsErr result
            ↔ (Contains self.old.fails self.old.calls ⊎ (self.old.room < length self.old.held + length bytes.now)) }
        ensures failed { OnErr result
            (self.new ≡ record self.old {
              calls = saturating_sum self.old.calls 1;
              faults = saturating_sum self.old.faults 1;
            }) }
        ensures cause { OnErr result (Rose self.old.faults self.new.faults) }
        ensures ok { OnOk result
            (self.new ≡ record self.old {
              held = self.old.held ++ bytes.now;
              calls = saturating_sum self.old.calls 1;
            }) }
    {
        let call = self.calls;
        self.calls = call.saturating_add(1);
        if self.fails.contains(&call) || bytes.len() > self.room - self.bytes.len() {
            self.faults = self.faults.saturating_add(1);
            return Err(Failed);
        }
        self.bytes.extend_from_slice(bytes).unwrap();
        Ok(())
    }
}
