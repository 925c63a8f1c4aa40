//! The current folder as a shelf.

ghost use Rattle.std.specs.Prelude.{◌≡◌, ◌<◌, ◌≤◌, max, length, false, refl, is_some, IfOk, OnErr};
ghost use Rattle.base_defs.specs.Counts.{saturating_sum, Rose};
ghost use Rattle.bench_io.specs.Stream.{empty_calls};
ghost use Rattle.bench_shelf.specs.States.{FixedPart, fixed_part, same_files};
ghost use Rattle.bench_shelf.specs.FolderShelf.{hidden_state, OpensFrom};

use crate::error::OpenError;
use crate::file_name::FileName;
use crate::shelf::Shelf;
use bench_io::{Failed, Source};
use std::fs::{File, OpenFile};
use std::io::{ErrorKind, Read};
use std::marker::Model;
use std::os::unix::fs::MetadataExt;
use std::rt::Files;
use std::{fs, io};

/// The regular files of the current folder by their names. A link is none of them, and neither is a folder, a device or
/// a pipe: their names are missing, as is a name that no entry has. Each error of the system but that is a fault. To a
/// caller of the trait it shows nothing of its files.
#[derive(Drop)]
pub struct DirShelf<'a, R: Files> {
    folder: &'a R,
    file: Option<R::File>,
    calls: u64,
    taken: u64,
    given: u64,
    largest: u64,
    empty: u64,
    faults: u64,
    opens: u64,
    misses: u64,
}

impl<'a, R: Files> Model for DirShelf<'a, R> {
    ghost use Rattle.std.specs.Prelude.{is_some};
    ghost use Rattle.bench_shelf.specs.FolderShelf.{Folder};

    ghost Value = { Folder };

    ghost view = { λ s. record {
      is_open = is_some s.file;
      calls = s.calls;
      taken = s.taken;
      given = s.given;
      largest = s.largest;
      empty = s.empty;
      faults = s.faults;
      opens = s.opens;
      misses = s.misses;
    } };
}

impl<'a, R: Files> DirShelf<'a, R> {
    /// The current folder of a runtime, of which no file is open.
    pub fn new(folder: &'a R) -> DirShelf<'a, R>
        ensures { result ≡ record {
          is_open = false;
          calls = 0;
          taken = 0;
          given = 0;
          largest = 0;
          empty = 0;
          faults = 0;
          opens = 0;
          misses = 0;
        } }
    {
        DirShelf {
            folder,
            file: None,
            calls: 0,
            taken: 0,
            given: 0,
            largest: 0,
            empty: 0,
            faults: 0,
            opens: 0,
            misses: 0,
        }
    }

    /// Reads from the open file. A call that fails raises the count of faults by one, and no other call does.
    fn read(&mut self, buffer: &mut [u8]) -> Result<usize, Failed>
        ensures within { IfOk result (λ count. count ≤ length buffer.old) }
        ensures cause { OnErr result (Rose self.old.faults self.new.faults) }
        ensures ok { IfOk result (λ count. self.new ≡ record self.old {
          calls = saturating_sum self.old.calls 1;
          taken = saturating_sum self.old.taken count;
          given = saturating_sum self.old.given count;
          largest = max self.old.largest (saturating_sum self.old.given count);
          empty = saturating_sum self.old.empty (empty_calls count);
        }) }
        ensures error { OnErr result (self.new ≡ record self.old {
          calls = saturating_sum self.old.calls 1;
          empty = saturating_sum self.old.empty 1;
          faults = saturating_sum self.old.faults 1;
        }) }
    {
        self.calls = self.calls.saturating_add(1);
        match take_from(&mut self.file, buffer) {
            Ok(count) => {
                self.taken = self.taken.saturating_add(count as u64);
                self.given = self.given.saturating_add(count as u64);
                self.largest = self.largest.max(self.given);
                if count == 0 {
                    self.empty = self.empty.saturating_add(1);
                }
                Ok(count)
            }
            Err(_) => {
                self.empty = self.empty.saturating_add(1);
                self.faults = self.faults.saturating_add(1);
                Err(Failed)
            }
        }
    }
}

impl<'a, R: Files> Source for DirShelf<'a, R> {
    ghost state = { λ s. (hidden_state s).source };

    ghost Kept = { FixedPart };

    ghost kept = { λ s. fixed_part (hidden_state s) };

    fn take(&mut self, buffer: &mut [u8]) -> Result<usize, Failed> {
        self.read(buffer)
    }
}

impl<'a, R: Files> Shelf for DirShelf<'a, R> {
    ghost shelf = { hidden_state };

    ghost source_is = { λ _. refl };

    ghost keeps = { λ before after. same_files (hidden_state before) (hidden_state after) };

    /// Opens a file, and counts the call. One that is refused leaves none open and raises the count of faults or that
    /// of misses by one, and no other call does.
    fn open_file(&mut self, name: &FileName) -> Result<(), OpenError>
        ensures { OpensFrom self.old result self.new }
    {
        self.file = None;
        self.given = 0;
        self.opens = self.opens.saturating_add(1);
        match regular_file(self.folder, name.as_bytes()) {
            Ok(Some(file)) => {
                self.file = Some(file);
                Ok(())
            }
            Ok(None) => {
                self.misses = self.misses.saturating_add(1);
                Err(OpenError::Missing)
            }
            Err(_) => {
                self.faults = self.faults.saturating_add(1);
                Err(OpenError::Failed)
            }
        }
    }
}

/// Reads from a file, where there is one.
fn take_from<F: Read>(file: &mut Option<F>, buffer: &mut [u8]) -> io::Result<usize>
    ensures within { IfOk result (λ count. count ≤ length buffer.old) }
    ensures stays { is_some file.new ≡ is_some file.old }
{
    match file {
        Some(file) => file.read(buffer),
        None => Ok(0),
    }
}

/// The regular file of a name, where there is one. What was opened is the file that was found to be regular, or else it
/// is none, also where its entry is gone by then.
fn regular_file<R: Files>(folder: &R, name: &[u8]) -> io::Result<Option<R::File>> {
    let Ok(name) = str::from_utf8(name) else {
        return Ok(None);
    };
    let found = match fs::symlink_metadata(folder, name) {
        Ok(found) => found,
        Err(error) if error.kind() == ErrorKind::NotFound => return Ok(None),
        Err(error) => return Err(error),
    };
    if !found.is_file() {
        return Ok(None);
    }
    let file = match File::open(folder, name) {
        Ok(file) => file,
        Err(error) if error.kind() == ErrorKind::NotFound => return Ok(None),
        Err(error) => return Err(error),
    };
    let opened = file.metadata()?;
    if opened.dev() == found.dev() && opened.ino() == found.ino() {
        Ok(Some(file))
    } else {
        Ok(None)
    }
}
