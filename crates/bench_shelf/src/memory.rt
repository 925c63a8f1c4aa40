//! A shelf in memory.

ghost use Rattle.std.specs.Prelude.{◌≡◌, ◌↔◌, ◌<◌, ◌≤◌, min, max, [], ◌++◌, length, take, drop, refl, IsTrue, IsFalse};
ghost use Rattle.std.specs.Prelude.{IsErr, IfOk, OnOk, OnErr, IfErr, Contains, is_some, Option};
ghost use Rattle.std.specs.Option.{option_map, unwrap_or};
ghost use Rattle.base_defs.specs.Counts.{saturating_sum, Rose};
ghost use Rattle.bench_io.specs.Stream.{empty_calls};
ghost use Rattle.bench_shelf.specs.States.{FixedPart, fixed_part, same_files, visible_state};
ghost use Rattle.bench_shelf.specs.MemoryShelf.{named, file_bytes, OpensIn};

use crate::error::OpenError;
use crate::file_name::FileName;
use crate::shelf::Shelf;
use bench_io::{Failed, Source, copy_front};
use std::marker::Model;

/// A shelf of files in memory, of which the first of equal names counts. It gives as many bytes at a time as there is
/// room for, and fails at given calls.
#[derive(Debug, Drop)]
pub struct MemShelf {
    files: Vec<(FileName, Vec<u8>)>,
    // The name of the open file, and how many of its bytes are left.
    current: Option<FileName>,
    rest: usize,
    // The number of calls of `open_file` and `take` together.
    requests: u64,
    calls: u64,
    taken: u64,
    // How many bytes were given since a file was opened last, and the most of one opening.
    given: u64,
    largest: u64,
    empty: u64,
    fails: Vec<u64>,
    faults: u64,
    // The number of calls of `open_file`.
    opens: u64,
    misses: u64,
}

impl Model for MemShelf {
    ghost use Rattle.bench_shelf.specs.States.{Shelved};
    ghost use Rattle.bench_shelf.specs.MemoryShelf.{named, open_bytes, left_of, IsWithin};

    ghost Value = { Shelved };

    ghost view = { λ s. record {
      files = named (λ bytes. bytes.items) s.files.items;
      left = left_of s.rest (open_bytes (named (λ bytes. bytes.items) s.files.items) s.current);
      requests = s.requests;
      calls = s.calls;
      taken = s.taken;
      given = s.given;
      largest = s.largest;
      empty = s.empty;
      fails = s.fails.items;
      faults = s.faults;
      opens = s.opens;
      misses = s.misses;
    } };

    ghost invariant = { λ s. IsWithin s.rest (open_bytes (named (λ bytes. bytes.items) s.files.items) s.current) };
}

impl MemShelf {
    /// A shelf of these files, of which none is open. Its calls of `open_file` and `take` are numbered together from 0,
    /// and those whose numbers are in `fails` fail.
    pub fn new(files: Vec<(FileName, Vec<u8>)>, fails: Vec<u64>) -> MemShelf
        ensures { result ≡ record {
          files = named (λ bytes. bytes.items) files.items;
          left = [];
          requests = 0;
          calls = 0;
          taken = 0;
          given = 0;
          largest = 0;
          empty = 0;
          fails = fails.items;
          faults = 0;
          opens = 0;
          misses = 0;
        } }
    {
        MemShelf {
            files,
            current: None,
            rest: 0,
            requests: 0,
            calls: 0,
            taken: 0,
            given: 0,
            largest: 0,
            empty: 0,
            fails,
            faults: 0,
            opens: 0,
            misses: 0,
        }
    }

    /// How many calls have failed.
    pub fn faults(&self) -> u64
        ensures { result ≡ self.now.faults }
    {
        self.faults
    }

    /// How many names were missing.
    pub fn misses(&self) -> u64
        ensures { result ≡ self.now.misses }
    {
        self.misses
    }

    /// Whether the next call fails, which is then counted as made.
    fn fails_next(&mut self) -> bool
        ensures fails { IsTrue result ↔ Contains self.old.fails self.old.requests }
        ensures counted { self.new ≡ record self.old { requests = saturating_sum self.old.requests 1 } }
    {
        let request = self.requests;
        self.requests = request.saturating_add(1);
        self.fails.contains(&request)
    }

    /// Counts a call of `open_file`, and closes the open file. Of the one that is opened next no bytes were given yet.
    fn begin_opening(&mut self)
        ensures { self.new ≡ record self.old { left = []; given = 0; opens = saturating_sum self.old.opens 1 } }
    {
        self.opens = self.opens.saturating_add(1);
        self.current = None;
        self.rest = 0;
        self.given = 0;
    }

    /// Opens the file of a name and says whether there is one.
    fn open(&mut self, name: &FileName) -> bool
        ensures there { result ≡ is_some (file_bytes self.old.files name.now) }
        ensures opened { IsTrue result →
            self.new ≡ record self.old { left = unwrap_or (file_bytes self.old.files name.now) [] } }
        ensures missing { IsFalse result → self.new ≡ self.old }
    {
        match file_bytes(self.files.as_slice(), name) {
            Some(bytes) => {
                self.rest = bytes.len();
                self.current = Some(*name);
                true
            }
            None => false,
        }
    }

    /// Goes on after some bytes of the open file, which are given.
    fn advance(&mut self, count: usize)
        requires { count ≤ length self.old.left }
        ensures { self.new ≡ record self.old {
          left = drop count self.old.left;
          taken = saturating_sum self.old.taken count;
          given = saturating_sum self.old.given count;
          largest = max self.old.largest (saturating_sum self.old.given count);
          empty = saturating_sum self.old.empty (empty_calls count);
        } }
    {
        self.rest -= count;
        self.taken = self.taken.saturating_add(count as u64);
        self.given = self.given.saturating_add(count as u64);
        self.largest = self.largest.max(self.given);
        if count == 0 {
            self.empty = self.empty.saturating_add(1);
        }
    }

    /// What is left of the open file.
    fn left(&self) -> &[u8]
        ensures { result.now ≡ self.now.left }
    {
        match &self.current {
            Some(name) => match file_bytes(self.files.as_slice(), name) {
                Some(bytes) => &bytes[bytes.len() - self.rest..],
                None => &[],
            },
            None => &[],
        }
    }
}

impl Source for MemShelf {
    ghost state = { λ s. (visible_state s).source };

    ghost Kept = { FixedPart };

    ghost kept = { λ s. fixed_part (visible_state s) };

    fn take(&mut self, buffer: &mut [u8]) -> Result<usize, Failed>
        requires { 0 < length buffer.old }
        ensures fails { IsErr result ↔ Contains self.old.fails self.old.requests }
        ensures failed { OnErr result (self.new ≡ record self.old {
          requests = saturating_sum self.old.requests 1;
          calls = saturating_sum self.old.calls 1;
          empty = saturating_sum self.old.empty 1;
          faults = saturating_sum self.old.faults 1;
        }) }
        ensures cause { OnErr result (Rose self.old.faults self.new.faults) }
        ensures count { IfOk result (λ count. count ≡ min (length buffer.old) (length self.old.left)) }
        ensures bytes { IfOk result (λ count. buffer.new ≡ take count self.old.left ++ drop count buffer.old) }
        ensures ok { IfOk result (λ count. self.new ≡ record self.old {
          left = drop count self.old.left;
          requests = saturating_sum self.old.requests 1;
          calls = saturating_sum self.old.calls 1;
          taken = saturating_sum self.old.taken count;
          given = saturating_sum self.old.given count;
          largest = max self.old.largest (saturating_sum self.old.given count);
          empty = saturating_sum self.old.empty (empty_calls count);
        }) }
    {
        let fails = self.fails_next();
        self.calls = self.calls.saturating_add(1);
        if fails {
            self.empty = self.empty.saturating_add(1);
            self.faults = self.faults.saturating_add(1);
            return Err(Failed);
        }
        let count = copy_front(self.left(), buffer);
        self.advance(count);
        Ok(count)
    }
}

impl Shelf for MemShelf {
    ghost shelf = { visible_state };

    ghost source_is = { λ _. refl };

    ghost keeps = { λ before after. same_files (visible_state before) (visible_state after) };

    fn open_file(&mut self, name: &FileName) -> Result<(), OpenError>
        ensures { OpensIn self.old name.now result self.new }
    {
        let fails = self.fails_next();
        self.begin_opening();
        if fails {
            self.faults = self.faults.saturating_add(1);
            return Err(OpenError::Failed);
        }
        if self.open(name) {
            return Ok(());
        }
        self.misses = self.misses.saturating_add(1);
        Err(OpenError::Missing)
    }
}

/// The bytes of the first file of a name.
#[tactic(auto, using(crate::proofs::Names::name_here))]
fn file_bytes<'a>(files: &'a [(FileName, Vec<u8>)], name: &FileName) -> Option<&'a [u8]>
    ensures { option_map (λ bytes. bytes.now) result ≡ file_bytes (named (λ bytes. bytes.items) files.now) name.now }
{
    let mut rest = files;
    while let [file, others @ ..] = rest {
        if *name == file.0 {
            return Some(file.1.as_slice());
        }
        rest = others;
    }
    None
}
