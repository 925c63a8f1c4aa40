//! A run that is played from its middle on.

ghost use Rattle.std.specs.Prelude.{◌≡◌, ◌<◌};
ghost use Rattle.gpl_run.specs.Sessions.{IsNew};

use crate::programs::{Program, machine_of};
use bench_io::MemSink;
use gpl_run::Session;
use std::alloc::{AllocError, Global};
use std::marker::Brand;
use std::sync::ledger::{Blank, Ledger};
use std::test::Fail;
use tms_step::{Machine, Steps};
use trace_dump::{FirstChanges, Seen, play};

/// What `play` writes of the step after the first 23 of a program, as the first that it sees.
fn played<L: Ledger>(
    alloc: Global,
    machine: Machine,
    blank: Blank,
) -> Result<Option<MemSink>, AllocError>
    requires name { blank.name ≡ L.name }
    requires parts { blank.parts ≡ L.parts }
    requires some { 0 < L.parts }
    requires new { IsNew machine }
{
    let mut steps = Steps::<L>::new(blank);
    let mut session = Session::new(machine, &mut steps);
    for _ in 0..23 {
        if !session.is_running() {
            return Ok(None);
        }
        session.next(&mut steps);
    }
    if !session.is_running() {
        return Ok(None);
    }
    let mut seen = Seen::new(alloc, session.machine())?;
    let mut out = MemSink::new(alloc, 200, Vec::new(alloc))?;
    match play(
        &mut session,
        &mut seen,
        &mut FirstChanges::new(),
        1,
        &mut out,
        &mut steps,
    ) {
        Ok(1) => Ok(Some(out)),
        _ => Ok(None),
    }
}

/// The same of the cartridge.
fn played_cartridge(alloc: Global) -> Option<MemSink> {
    let machine = machine_of(alloc, Program::Show)?;
    played::<Brand>(alloc, machine, Blank::new(1)).ok()?
}

#[test]
fn play_begins_where_a_session_is(rt: HostRuntime) -> Result<(), Fail> {
    let out = played_cartridge(rt.alloc());
    assert!(rt;
        out.is_some_and(|sink| sink.bytes()
            == b"     1 >604C SD0 D9F R80 ADD @>8302,>7F C2 >8302=7F\n".as_slice())
    );
    Ok(())
}
