//! Small programs, worked out by hand.

ghost use Rattle.std.specs.Prelude.{◌≡◌, ◌<◌, ◌≤◌, length};

use console_bus::Bus;
use grom_counter::Grom;
use std::alloc::{AllocError, Global};
use std::marker::Brand;
use std::sync::ledger::{Blank, Ledger};
use std::test::Fail;
use tms_step::{Machine, RunEnd, StepEnd, Steps};
use vdp_ports::Vdp;

/// A machine with the workspace at >83E0 and the words from >A000 on, where it begins. Extended operation 2 has its
/// workspace at >A100 and begins at >A200.
fn loaded(alloc: Global, words: &[u16]) -> Result<Machine, AllocError>
    requires { length words.now ≤ 32 }
{
    let grom = Grom::new(alloc, &vec![in alloc; 0u8; 65_536]?)?;
    let mut bus = Bus::new(alloc, Vdp::new(alloc)?, grom)?;
    bus.place(0x0048, 0xA100);
    bus.place(0x004A, 0xA200);
    for (i, word) in words.iter().enumerate() {
        bus.place(0xA000 + 2 * i as u16, *word);
    }
    Ok(Machine::new(bus, 0x83E1, 0xA001))
}

/// How a run ends, on a counter of its own.
fn run<L: Ledger>(blank: Blank, machine: &mut Machine, stop: Option<u16>, limit: u64) -> RunEnd
    requires name { blank.name ≡ L.name }
    requires parts { blank.parts ≡ L.parts }
    requires some { 0 < L.parts }
{
    let mut steps: Steps<L> = Steps::new(blank);
    machine.run_to(stop, limit, &mut steps)
}

/// A program, the address that ends its run, and its limit; then the end of the run, and after it the program counter,
/// the status, the count, and registers 1 and 2, which are 0 where the workspace has none.
type Run = ([u16; 6], Option<u16>, u64, RunEnd, [u16; 5]);

/// LI R1,>7FFF; LI R2,1; A R2,R1; JMP $.
const SUM: [u16; 6] = [0x0201, 0x7FFF, 0x0202, 0x0001, 0xA042, 0x10FF];

const RUNS: &[Run] = &[
    (
        SUM,
        None,
        10,
        RunEnd::SelfJump,
        [0xA00A, 0x8800, 4, 0x8000, 1],
    ),
    (
        SUM,
        None,
        4,
        RunEnd::SelfJump,
        [0xA00A, 0x8800, 4, 0x8000, 1],
    ),
    (SUM, None, 3, RunEnd::Limit, [0xA00A, 0x8800, 3, 0x8000, 1]),
    (
        SUM,
        Some(0xA00A),
        3,
        RunEnd::Reached,
        [0xA00A, 0x8800, 3, 0x8000, 1],
    ),
    (
        SUM,
        Some(0xA004),
        10,
        RunEnd::Reached,
        [0xA004, 0xC000, 1, 0x7FFF, 0],
    ),
    (SUM, Some(0xA000), 0, RunEnd::Reached, [0xA000, 0, 0, 0, 0]),
    (
        [0; 6],
        None,
        1,
        RunEnd::Refused(0xA000),
        [0xA000, 0, 0, 0, 0],
    ),
    // MOV @>8800,R1
    (
        [0xC060, 0x8800, 0, 0, 0, 0],
        None,
        1,
        RunEnd::Port(0x8800),
        [0xA000, 0, 0, 0, 0],
    ),
    // LI R1,>8310; MOV *R1+,@>8802: the register grows before the word access to a port
    (
        [0x0201, 0x8310, 0xC831, 0x8802, 0, 0],
        None,
        10,
        RunEnd::Port(0x8802),
        [0xA004, 0x8000, 1, 0x8310, 0],
    ),
    // LI R1,>83E2; A *R1+,*R1+: the register itself, grown, and the one after it
    (
        [0x0201, 0x83E2, 0xAC71, 0x10FF, 0, 0],
        None,
        10,
        RunEnd::SelfJump,
        [0xA006, 0x8000, 3, 0x83E6, 0x83E4],
    ),
    // LI R1,>1234; MOV R1,@>83E4: the register by its address
    (
        [0x0201, 0x1234, 0xC801, 0x83E4, 0x10FF, 0],
        None,
        10,
        RunEnd::SelfJump,
        [0xA008, 0xC000, 3, 0x1234, 0x1234],
    ),
    // LI R1,>1234; MOV R1,@>80E4: the same, at a mirror of the scratchpad
    (
        [0x0201, 0x1234, 0xC801, 0x80E4, 0x10FF, 0],
        None,
        10,
        RunEnd::SelfJump,
        [0xA008, 0xC000, 3, 0x1234, 0x1234],
    ),
    // LI R1,>1234; MOV R1,@>9C02: a word access to a port that is written
    (
        [0x0201, 0x1234, 0xC801, 0x9C02, 0, 0],
        None,
        10,
        RunEnd::Port(0x9C02),
        [0xA004, 0xC000, 1, 0x1234, 0],
    ),
    // LWPI >87FE; MOV R1,@>8310: register 1 is a port
    (
        [0x02E0, 0x87FE, 0xC801, 0x8310, 0, 0],
        None,
        10,
        RunEnd::Port(0x8800),
        [0xA004, 0, 1, 0, 0],
    ),
    // XOP R5,2; its workspace is at >A100 and its program at >A200, where no instruction stands
    (
        [0x2C85, 0, 0, 0, 0, 0],
        None,
        10,
        RunEnd::Refused(0xA200),
        [0xA200, 0x0200, 1, 0, 0],
    ),
];

/// The program runs so.
fn runs_as(alloc: Global, row: &Run) -> Result<bool, AllocError> {
    let (words, stop, limit, end, after) = *row;
    ends_as(alloc, &words, stop, limit, end, after)
}

fn ends_as(
    alloc: Global,
    words: &[u16],
    stop: Option<u16>,
    limit: u64,
    end: RunEnd,
    after: [u16; 5],
) -> Result<bool, AllocError>
    requires { length words.now ≤ 32 }
{
    let mut machine = loaded(alloc, words)?;
    let ended = run::<Brand>(Blank::new(1), &mut machine, stop, limit);
    Ok(ended == end && has_registers(&machine, after))
}

fn has_registers(machine: &Machine, after: [u16; 5]) -> bool {
    let [pc, status, count, first, second] = after;
    machine.pc() == pc
        && machine.st() == status
        && machine.count() == u64::from(count)
        && register(machine, 1) == first
        && register(machine, 2) == second
}

/// What a workspace register holds; 0 where the workspace has none.
fn register(machine: &Machine, number: u8) -> u16
    requires { number < 16 }
{
    if machine.has_workspace() {
        machine.register(number)
    } else {
        0
    }
}

/// LI R1,>0040; MOVB R1,@>8C02; SWPB R1; MOVB R1,@>8C02: the video address 0, for writing.
/// LI R2,>ABCD; MOVB R2,@>8C00; SWPB R2; MOVB R2,@>8C00: two bytes.
/// CLR R1; MOVB R1,@>8C02; MOVB R1,@>8C02: the address 0, for reading.
/// MOVB @>8800,R1; AB @>8800,R1; JMP $: the bytes, moved and added.
const THROUGH_PORTS: &[u16] = &[
    0x0201, 0x0040, 0xD801, 0x8C02, 0x06C1, 0xD801, 0x8C02, 0x0202, 0xABCD, 0xD802, 0x8C00, 0x06C2,
    0xD802, 0x8C00, 0x04C1, 0xD801, 0x8C02, 0xD801, 0x8C02, 0xD060, 0x8800, 0xB060, 0x8800, 0x10FF,
];

/// LI R2,>AB00; MOVB R2,@>8C00: the byte that the video processor fetched ahead.
/// LWPI >87FE; MOVB R1,@>83E2; LWPI >83E0; JMP $: the byte of register 1, which is the port at >8800.
const FROM_A_REGISTER_AT_A_PORT: &[u16] = &[
    0x0202, 0xAB00, 0xD802, 0x8C00, 0x02E0, 0x87FE, 0xD801, 0x83E2, 0x02E0, 0x83E0, 0x10FF,
];

/// Whether XOP R5,2 goes on at its entry, in its workspace, with the address of R5 and where to return in its
/// registers.
fn keeps_its_return(alloc: Global) -> Result<bool, AllocError> {
    let mut machine = loaded(alloc, &[0x2C85])?;
    let end = machine.step();
    Ok(
        end == StepEnd::Done(0x2C85)
            && machine.wp() == 0xA100
            && machine.pc() == 0xA200
            && machine.st() == 0x0200
            && register(&machine, 11) == 0x83EA
            && register(&machine, 13) == 0x83E0
            && register(&machine, 14) == 0xA002
            && register(&machine, 15) == 0,
    )
}

#[test]
fn an_extended_operation_keeps_its_return(rt: HostRuntime) -> Result<(), Fail> {
    assert!(rt; keeps_its_return(rt.alloc())?);
    Ok(())
}

#[test]
fn programs_run_to_the_first_end(rt: HostRuntime) -> Result<(), Fail> {
    for row in RUNS {
        assert!(rt; runs_as(rt.alloc(), row)?, "at {:04X} {}", row.0[0], row.2);
    }
    // >AB + >CD is >78 with a carry and an overflow, and >78 has four ones
    let sum = [0xA02E, 0xD800, 14, 0x7800, 0xCDAB];
    assert!(rt; ends_as(rt.alloc(), THROUGH_PORTS, None, 100, RunEnd::SelfJump, sum)?);
    let byte = [0xA014, 0x8400, 6, 0xAB00, 0xAB00];
    assert!(rt;
        ends_as(
            rt.alloc(),
            FROM_A_REGISTER_AT_A_PORT,
            None,
            100,
            RunEnd::SelfJump,
            byte
        )?
    );
    Ok(())
}
