//! SEEK, and FETCH after it, on a machine that is at SEEK.

ghost use Rattle.std.specs.Prelude.{◌≡◌, ◌<◌};

use crate::machines::{Program, console};
use crate::pieces::is_idle;
use native_interp::{FETCH, SEEK, WORKSPACE};
use sim_operands::{run_fetch, run_seek};
use sim_view::{is_ready, register};
use std::alloc::{AllocError, Global};
use std::marker::Brand;
use std::sync::ledger::{Blank, Ledger};
use std::test::Fail;
use tms_step::{Machine, Steps};

/// What is in the GROMs.
const BYTES: Program = &[
    (0x6000, &[0x12, 0x34]),
    (0x7FFF, &[0x56]),
    (0xE000, &[0x78]),
];

/// Addresses, and the byte that FETCH gives after SEEK of each.
const FETCHED: &[(u16, u16)] = &[
    (0x6000, 0x12),
    (0x6001, 0x34),
    (0x6002, 0x00),
    (0x7FFF, 0x56),
    (0xE000, 0x78),
];

/// A machine at SEEK, with an address in register 6 and FETCH in register 11.
fn seeking(alloc: Global, at: u16) -> Result<Machine, AllocError> {
    let mut bus = console(alloc, BYTES)?;
    let [high, low] = at.to_be_bytes();
    bus.set_cell(0xEC, high);
    bus.set_cell(0xED, low);
    let [high, low] = FETCH.to_be_bytes();
    bus.set_cell(0xF6, high);
    bus.set_cell(0xF7, low);
    Ok(Machine::new(bus, WORKSPACE, SEEK))
}

/// Runs SEEK and FETCH, on a counter of their own.
fn run<L: Ledger>(blank: Blank, machine: &mut Machine)
    requires name { blank.name ≡ L.name }
    requires parts { blank.parts ≡ L.parts }
    requires some { 0 < L.parts }
{
    let mut steps: Steps<L> = Steps::new(blank);
    if !is_ready(machine, SEEK) || !is_idle(machine) {
        return;
    }
    run_seek(machine, &mut steps);
    if !is_ready(machine, FETCH) || !is_idle(machine) {
        return;
    }
    run_fetch(machine, &mut steps);
}

/// The machine after SEEK of an address, and FETCH.
fn after(alloc: Global, at: u16) -> Result<Machine, AllocError> {
    let mut machine = seeking(alloc, at)?;
    run::<Brand>(Blank::new(1), &mut machine);
    Ok(machine)
}

/// The machine is back at FETCH, with a byte in the high half of register 6.
fn has_fetched(machine: &Machine, byte: u16) -> bool {
    is_ready(machine, FETCH)
        && register(machine, 6) / 256 == byte
        && register(machine, 6) % 256 == 0
}

#[test]
fn fetch_gives_the_byte_at_the_address(rt: HostRuntime) -> Result<(), Fail> {
    for &(at, byte) in FETCHED {
        let machine = after(rt.alloc(), at)?;
        assert!(rt; has_fetched(&machine, byte), "at {at:04X}");
    }
    Ok(())
}
