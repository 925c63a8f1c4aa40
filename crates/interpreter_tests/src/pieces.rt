//! Boot, the step, B, EXIT and the stop at a code byte that is no instruction's, piece by piece, on small GPL programs.

ghost use Rattle.std.specs.Prelude.{◌≡◌, ◌<◌, true};
ghost use Rattle.interp_defs.specs.Match.{PortsAreIdle};

use crate::machines::{Program, booting};
use native_interp::{GBOOT, GEXIT, GOB, GOEXIT, GOTO, GSTEP, GSTOP, SEEK, UNKN};
use sim_flow::{leave, read_target};
use sim_jumps::go_to;
use sim_operands::run_seek;
use sim_rows::dispatch;
use sim_steps::{boot, stop_code};
use sim_view::{is_ready, register};
use std::alloc::{AllocError, Global};
use std::marker::Brand;
use std::sync::ledger::{Blank, Ledger};
use std::test::Fail;
use tms_step::{Machine, Steps};

/// More pieces than any of the programs runs.
const MOST_PIECES: u32 = 60;

/// A program's name, the program, the address where the machine ends, and registers 0 and 1 there.
const RUNS: &[(&str, Program, u16, [u16; 2])] = &[
    ("EXIT", &[(0x6000, &[0x0B])], GEXIT, [0x000B, 0x6000]),
    (
        "B >6010; EXIT",
        &[(0x6000, &[0x05, 0x60, 0x10]), (0x6010, &[0x0B])],
        GEXIT,
        [0x000B, 0x6010],
    ),
    (
        "B >6010; B >7800; EXIT",
        &[
            (0x6000, &[0x05, 0x60, 0x10]),
            (0x6010, &[0x05, 0x78, 0x00]),
            (0x7800, &[0x0B]),
        ],
        GEXIT,
        [0x000B, 0x7800],
    ),
    (
        "B >7FFF; EXIT in the last byte of a GROM",
        &[(0x6000, &[0x05, 0x7F, 0xFF]), (0x7FFF, &[0x0B])],
        GEXIT,
        [0x000B, 0x7FFF],
    ),
    (
        "B >E000; EXIT in the first byte of the last GROM",
        &[(0x6000, &[0x05, 0xE0, 0x00]), (0xE000, &[0x0B])],
        GEXIT,
        [0x000B, 0xE000],
    ),
    ("no instruction", &[(0x6000, &[0xF4])], GSTOP, [1, 0x6000]),
    (
        "B >6010; no instruction",
        &[(0x6000, &[0x05, 0x60, 0x10]), (0x6010, &[0xF4])],
        GSTOP,
        [1, 0x6010],
    ),
];

/// No half of an address was written to either port.
pub(crate) fn is_idle(machine: &Machine) -> bool
    ensures { result ≡ true → PortsAreIdle machine.now.cpu.memory }
{
    machine.bus().vdp().is_idle() && machine.bus().grom().is_idle()
}

/// Runs the piece where the machine is; none where it is at no piece.
fn run_piece<L: Ledger>(machine: &mut Machine, steps: &mut Steps<L>) {
    let at = machine.pc();
    if !is_ready(machine, at) {
        return;
    }
    match at {
        GBOOT => boot(machine, steps),
        GSTEP => dispatch(machine, steps),
        UNKN => stop_code(machine, steps),
        SEEK if is_idle(machine) => run_seek(machine, steps),
        GOB => read_target(machine, steps),
        GOTO => go_to(machine, steps),
        GOEXIT => leave(machine, steps),
        _ => {}
    }
}

/// Runs the pieces up to the machine's end, on a counter of their own.
fn run<L: Ledger>(blank: Blank, machine: &mut Machine)
    requires name { blank.name ≡ L.name }
    requires parts { blank.parts ≡ L.parts }
    requires some { 0 < L.parts }
{
    let mut steps: Steps<L> = Steps::new(blank);
    for _ in 0..MOST_PIECES {
        run_piece(machine, &mut steps);
    }
}

/// The machine after the pieces of a program.
fn after(alloc: Global, program: Program) -> Result<Machine, AllocError> {
    let mut machine = booting(alloc, program)?;
    run::<Brand>(Blank::new(1), &mut machine);
    Ok(machine)
}

/// The machine is at an end with these words in registers 0 and 1.
fn has_ended(machine: &Machine, end: u16, registers: [u16; 2]) -> bool {
    let [zero, one] = registers;
    is_ready(machine, end) && register(machine, 0) == zero && register(machine, 1) == one
}

/// The cells of the two stack pointers are as boot sets them.
fn has_empty_stacks(machine: &Machine) -> bool {
    machine.bus().cell(0x72) == 0x9F && machine.bus().cell(0x73) == 0x7E
}

#[test]
fn pieces_run_to_the_end_of_the_program(rt: HostRuntime) -> Result<(), Fail> {
    for &(name, program, end, registers) in RUNS {
        let machine = after(rt.alloc(), program)?;
        assert!(rt;
            has_ended(&machine, end, registers) && has_empty_stacks(&machine),
            "{name}"
        );
    }
    Ok(())
}
