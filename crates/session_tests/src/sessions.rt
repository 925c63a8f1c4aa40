//! Sessions: the interpreter is built, loaded with a GPL program and booted, and the program is run step by step.

ghost use Rattle.std.specs.Prelude.{◌≡◌, ◌<◌};
ghost use Rattle.gpl_run.specs.Sessions.{IsNew};

use gpl_forms::GromImage;
use gpl_run::{BuildError, Session, build_interp, load_interpreter};
use gpl_step_defs::Reason;
use interp_defs::Turn;
use std::alloc::Global;
use std::marker::Brand;
use std::sync::ledger::{Blank, Ledger};
use std::test::Fail;
use tms_step::{Machine, Steps};

/// A program's name, its bytes from >6000 on, the addresses after its steps, and how and where it ends.
const PROGRAMS: &[(&str, &[u8], &[u16], Reason, u16)] = &[
    ("EXIT", &[0x0B], &[], Reason::Exit, 0x6000),
    (
        "ST @>8300,5; B >6006; EXIT",
        &[0xBE, 0x00, 0x05, 0x05, 0x60, 0x06, 0x0B],
        &[0x6003, 0x6006],
        Reason::Exit,
        0x6006,
    ),
    (
        "ST @>8300,5; ST @>83C2,1",
        &[0xBE, 0x00, 0x05, 0xBE, 0x80, 0xC2, 0x01],
        &[0x6003],
        Reason::Cell,
        0x6003,
    ),
    (
        "ST @>8300,5; no instruction",
        &[0xBE, 0x00, 0x05, 0xF4],
        &[0x6003],
        Reason::Opcode,
        0x6003,
    ),
];

/// An image with bytes from >6000 on.
fn put_all(image: &mut GromImage, bytes: &[u8]) {
    let mut at: u16 = 0x6000;
    for &byte in bytes {
        image.put(at, byte);
        at = at.wrapping_add(1);
    }
}

/// The next step of a program that is running, or nothing of one that has ended.
fn step<L: Ledger>(session: &mut Session, steps: &mut Steps<L>) -> Option<Turn> {
    match session.ended() {
        None => Some(session.next(steps)),
        Some(_) => None,
    }
}

/// Whether the program makes its steps, each to the address that is after it, and then ends so.
fn runs_so<L: Ledger>(
    blank: Blank,
    machine: Machine,
    after: &[u16],
    reason: Reason,
    end: u16,
) -> bool
    requires name { blank.name ≡ L.name }
    requires parts { blank.parts ≡ L.parts }
    requires some { 0 < L.parts }
    requires new { IsNew machine }
{
    let mut steps: Steps<L> = Steps::new(blank);
    let mut session = Session::new(machine, &mut steps);
    if !session.is_running() || session.pc() != 0x6000 {
        return false;
    }
    for &address in after {
        if step(&mut session, &mut steps) != Some(Turn::Stepped) || session.pc() != address {
            return false;
        }
    }
    step(&mut session, &mut steps) == Some(Turn::Stopped(reason))
        && session.ended() == Some(reason)
        && !session.is_running()
        && session.pc() == end
        && step(&mut session, &mut steps).is_none()
}

/// Whether a program is loaded and runs so.
fn is_run(
    alloc: Global,
    bytes: &[u8],
    after: &[u16],
    reason: Reason,
    end: u16,
) -> Result<bool, BuildError> {
    let interpreter = build_interp(alloc)?;
    let mut image = GromImage::new(alloc)?;
    put_all(&mut image, bytes);
    let machine = load_interpreter(alloc, &interpreter, image.bytes(), 0x6000)?;
    Ok(runs_so::<Brand>(Blank::new(1), machine, after, reason, end))
}

#[test]
fn sessions_run_step_by_step(rt: HostRuntime) -> Result<(), Fail> {
    for &(name, bytes, after, reason, end) in PROGRAMS {
        assert!(rt;
            is_run(rt.alloc(), bytes, after, reason, end) == Ok(true),
            "{name}"
        );
    }
    Ok(())
}
