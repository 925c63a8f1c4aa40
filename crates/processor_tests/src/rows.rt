//! Single instructions of every form, worked out by hand from the data manual's rules.

ghost use Rattle.std.specs.Prelude.{◌<◌};

use console_bus::Bus;
use grom_counter::Grom;
use std::alloc::{AllocError, Global};
use std::test::Fail;
use tms_step::{Machine, StepEnd};
use vdp_ports::Vdp;

/// A machine at the words from >A002 on, with the workspace at >2000, registers 0 to 3 and a status: a return from a
/// context switch brought it there. Extended operation 1 has its workspace at >2060; extended operation 2 has it at
/// >87EC, where register 11 is a port.
fn standing(
    alloc: Global,
    words: [u16; 2],
    status: u16,
    registers: [u16; 4],
) -> Result<Machine, AllocError> {
    let grom = Grom::new(alloc, &vec![in alloc; 0u8; 65_536]?)?;
    let mut bus = Bus::new(alloc, Vdp::new(alloc)?, grom)?;
    bus.place(0x0044, 0x2061);
    bus.place(0x0046, 0xA201);
    bus.place(0x0048, 0x87EC);
    bus.place(0x004A, 0xA100);
    bus.place(0xA000, 0x0380);
    for (i, word) in words.iter().enumerate() {
        bus.place(0xA002 + 2 * i as u16, *word);
    }
    for (i, word) in registers.iter().enumerate() {
        bus.place(0x2000 + 2 * i as u16, *word);
    }
    bus.place(0x211A, 0x2000);
    bus.place(0x211C, 0xA002);
    bus.place(0x211E, status);
    let mut machine = Machine::new(bus, 0x2100, 0xA000);
    let _returned = machine.step();
    Ok(machine)
}

/// What a workspace register holds; all ones where the workspace has none.
fn register(machine: &Machine, number: u8) -> u16
    requires { number < 16 }
{
    if machine.has_workspace() {
        machine.register(number)
    } else {
        0xFFFF
    }
}

/// Registers 0 to 3 hold these words.
fn holds(machine: &Machine, registers: [u16; 4]) -> bool {
    let [zero, one, two, three] = registers;
    register(machine, 0) == zero
        && register(machine, 1) == one
        && register(machine, 2) == two
        && register(machine, 3) == three
}

/// The words of an instruction, the status and registers 0 to 3; then the status and the registers after it.
type Row = ([u16; 2], u16, [u16; 4], u16, [u16; 4]);

/// The first instruction is executed and leaves that.
fn leaves(alloc: Global, row: &Row) -> Result<bool, AllocError> {
    let (words, status, before, status_after, after) = *row;
    let mut machine = standing(alloc, words, status, before)?;
    Ok(
        machine.step() == StepEnd::Done(words[0])
            && machine.st() == status_after
            && holds(&machine, after),
    )
}

/// The word of an operation on R2 and R1, the status, R1 and R2; then the status and R1 after it.
const OF_TWO: &[(u16, u16, [u16; 2], u16, u16)] = &[
    // A
    (0xA042, 0, [0x7FFF, 1], 0x8800, 0x8000),
    (0xA042, 0, [0xFFFF, 1], 0x3000, 0),
    (0xA042, 0, [0x8000, 0x8000], 0x3800, 0),
    (0xA042, 0x1C0F, [1, 1], 0xC40F, 2),
    // AB
    (0xB042, 0, [0x7F55, 0x01AA], 0x8C00, 0x8055),
    (0xB042, 0x0400, [0xFF55, 0x0100], 0x3000, 0x0055),
    // S
    (0x6042, 0x1000, [0, 1], 0x8000, 0xFFFF),
    (0x6042, 0, [5, 5], 0x3000, 0),
    (0x6042, 0, [0x8000, 1], 0xD800, 0x7FFF),
    (0x6042, 0, [0x7FFF, 0xFFFF], 0x8800, 0x8000),
    // SB
    (0x7042, 0, [0x8055, 0x01AA], 0xDC00, 0x7F55),
    // C
    (0x8042, 0x1C00, [0x7FFF, 0x8000], 0x9C00, 0x7FFF),
    (0x8042, 0x1C00, [0xFFFF, 1], 0x5C00, 0xFFFF),
    (0x8042, 0, [7, 7], 0x2000, 7),
    // CB: odd parity by the source alone
    (0x9042, 0, [0x03FF, 0x8000], 0x8400, 0x03FF),
    (0x9042, 0x0400, [0x80FF, 0x0300], 0x4000, 0x80FF),
    // MOV
    (0xC042, 0x1800, [0x1234, 0x8000], 0x9800, 0x8000),
    (0xC042, 0x1800, [0x1234, 0], 0x3800, 0),
    // MOVB
    (0xD042, 0, [0x1234, 0xF1AA], 0x8400, 0xF134),
    (0xD042, 0x0400, [0x1234, 0x0055], 0x2000, 0x0034),
    // SOC, SOCB
    (0xE042, 0x1800, [0x0F00, 0x00F1], 0xD800, 0x0FF1),
    (0xF042, 0x0400, [0x0155, 0x02AA], 0xC000, 0x0355),
    // SZC, SZCB
    (0x4042, 0, [0xFFFF, 0x00FF], 0x8000, 0xFF00),
    (0x4042, 0, [0x00FF, 0x00FF], 0x2000, 0),
    (0x5042, 0x0400, [0xFF55, 0x0FAA], 0x8000, 0xF055),
    // COC
    (0x2042, 0xC000, [0x0FF0, 0x00F0], 0xE000, 0x0FF0),
    (0x2042, 0xE000, [0x00F0, 0x0FF0], 0xC000, 0x00F0),
    // CZC
    (0x2442, 0, [0xFF0F, 0x00F0], 0x2000, 0xFF0F),
    (0x2442, 0x2000, [0x0010, 0x00F0], 0, 0x0010),
    // XOR
    (0x2842, 0x1800, [0xFF00, 0xFFFF], 0xD800, 0x00FF),
];

/// The words of an operation on R1, the status, R0 and R1; then the status and R1 after it.
const OF_ONE: &[([u16; 2], u16, [u16; 2], u16, u16)] = &[
    // SRA R1,1; SRL R1,1; SRC R1,4
    ([0x0811, 0], 0, [0, 0x8001], 0x9000, 0xC000),
    ([0x0911, 0], 0, [0, 0x8001], 0xD000, 0x4000),
    ([0x0B41, 0], 0, [0, 0x1234], 0xC000, 0x4123),
    // SLA R1,1; SLA R1,2: the sign changes, and changes back
    ([0x0A11, 0], 0, [0, 0x4000], 0x8800, 0x8000),
    ([0x0A21, 0], 0, [0, 0x6000], 0x9800, 0x8000),
    ([0x0A21, 0], 0, [0, 0x4000], 0x3800, 0),
    // counts in R0: sixteen where its low four bits are 0
    ([0x0A01, 0], 0, [0, 1], 0x3800, 0),
    ([0x0B01, 0], 0, [0, 0x8001], 0x9000, 0x8001),
    ([0x0801, 0], 0, [0x0010, 0x8000], 0x9000, 0xFFFF),
    ([0x0901, 0], 0x0800, [0x0014, 0x00F8], 0xD800, 0x000F),
    // CLR; SETO; SWPB
    ([0x04C1, 0], 0xFC0F, [0, 0x1234], 0xFC0F, 0),
    ([0x0701, 0], 0xFC0F, [0, 0x1234], 0xFC0F, 0xFFFF),
    ([0x06C1, 0], 0xFC0F, [0, 0x1234], 0xFC0F, 0x3412),
    // NEG
    ([0x0501, 0], 0x1800, [0, 1], 0x8000, 0xFFFF),
    ([0x0501, 0], 0, [0, 0x8000], 0x8800, 0x8000),
    ([0x0501, 0], 0, [0, 0], 0x3000, 0),
    // INV
    ([0x0541, 0], 0x1800, [0, 0xFFFF], 0x3800, 0),
    // INC; INCT
    ([0x0581, 0], 0, [0, 0xFFFF], 0x3000, 0),
    ([0x0581, 0], 0, [0, 0x7FFF], 0x8800, 0x8000),
    ([0x05C1, 0], 0, [0, 0xFFFF], 0xD000, 1),
    // DEC; DECT
    ([0x0601, 0], 0x1000, [0, 0], 0x8000, 0xFFFF),
    ([0x0601, 0], 0, [0, 0x8000], 0xD800, 0x7FFF),
    ([0x0641, 0], 0, [0, 1], 0x8000, 0xFFFF),
    ([0x0641, 0], 0, [0, 2], 0x3000, 0),
    // ABS
    ([0x0741, 0], 0x1800, [0, 0xFFFF], 0x8000, 1),
    ([0x0741, 0], 0, [0, 0x8000], 0x8800, 0x8000),
    ([0x0741, 0], 0x1000, [0, 5], 0xC000, 5),
    // LI R1,>8000; AI R1,>FFFF; ANDI R1,>00FF; ORI R1,>8000
    ([0x0201, 0x8000], 0x1800, [0, 1], 0x9800, 0x8000),
    ([0x0221, 0xFFFF], 0, [0, 1], 0x3000, 0),
    ([0x0241, 0x00FF], 0x1800, [0, 0x1234], 0xD800, 0x0034),
    ([0x0261, 0x8000], 0, [0, 1], 0x8000, 0x8001),
    // CI R1,1
    ([0x0281, 1], 0, [0, 0xFFFF], 0x8000, 0xFFFF),
    ([0x0281, 1], 0x1C00, [0, 1], 0x3C00, 1),
    // STWP R1; STST R1; LIMI >FFF2
    ([0x02A1, 0], 0xFC0F, [0, 0], 0xFC0F, 0x2000),
    ([0x02C1, 0], 0xFFFF, [0, 0], 0xFFFF, 0xFFFF),
    ([0x0300, 0xFFF2], 0xFFFF, [0, 0], 0xFFF2, 0),
];

/// Operands in every mode; MPY and DIV, of which the first leaves the status and the second sets OV alone.
const IN_EVERY_MODE: &[Row] = &[
    // MOV *R2,R1; MOV *R2+,R1; MOVB *R2+,R1 at an odd address
    (
        [0xC052, 0],
        0,
        [0, 0, 0x2006, 0x1234],
        0xC000,
        [0, 0x1234, 0x2006, 0x1234],
    ),
    (
        [0xC072, 0],
        0,
        [0, 0, 0x2006, 0x1234],
        0xC000,
        [0, 0x1234, 0x2008, 0x1234],
    ),
    (
        [0xD072, 0],
        0,
        [0, 0x0055, 0x2007, 0x1234],
        0xC400,
        [0, 0x3455, 0x2008, 0x1234],
    ),
    // MOV @>2004(R2),R1; MOV @>2006,R1, where R0 is no index
    (
        [0xC062, 0x2004],
        0,
        [0, 0, 2, 0x1234],
        0xC000,
        [0, 0x1234, 2, 0x1234],
    ),
    (
        [0xC060, 0x2006],
        0,
        [9, 0, 0, 0x1234],
        0xC000,
        [9, 0x1234, 0, 0x1234],
    ),
    // MOV R2,*R1+; AB R2,@>2007
    (
        [0xCC42, 0],
        0,
        [0, 0x2006, 0x8001, 0],
        0x8000,
        [0, 0x2008, 0x8001, 0x8001],
    ),
    (
        [0xB802, 0x2007],
        0,
        [0, 0, 0x0100, 0x55FF],
        0x3000,
        [0, 0, 0x0100, 0x5500],
    ),
    // MPY R1,R2
    (
        [0x3881, 0],
        0,
        [0, 0xFFFF, 0xFFFF, 0],
        0,
        [0, 0xFFFF, 0xFFFE, 0x0001],
    ),
    // DIV R1,R2
    ([0x3C81, 0], 0, [0, 1, 1, 0], 0x0800, [0, 1, 1, 0]),
    ([0x3C81, 0], 0, [0, 0, 0, 5], 0x0800, [0, 0, 0, 5]),
    ([0x3C81, 0], 0, [0, 7, 0, 100], 0, [0, 7, 14, 2]),
    (
        [0x3C81, 0],
        0,
        [0, 0xFFFF, 0xFFFE, 0xFFFF],
        0,
        [0, 0xFFFF, 0xFFFF, 0xFFFE],
    ),
    // MPY leaves the status, and DIV with a quotient clears the overflow alone
    ([0x3881, 0], 0xFC0F, [0, 7, 0, 100], 0xFC0F, [0, 7, 0, 0]),
    ([0x3C81, 0], 0xFC0F, [0, 7, 0, 100], 0xF40F, [0, 7, 14, 2]),
];

fn leaves_two(alloc: Global, row: &(u16, u16, [u16; 2], u16, u16)) -> Result<bool, AllocError> {
    let (word, status, [first, second], status_after, after) = *row;
    let before = [0, first, second, 0];
    leaves(
        alloc,
        &(
            [word, 0],
            status,
            before,
            status_after,
            [0, after, second, 0],
        ),
    )
}

fn leaves_one(
    alloc: Global,
    row: &([u16; 2], u16, [u16; 2], u16, u16),
) -> Result<bool, AllocError> {
    let (words, status, [zero, one], status_after, after) = *row;
    let before = [zero, one, 0, 0];
    leaves(
        alloc,
        &(words, status, before, status_after, [zero, after, 0, 0]),
    )
}

/// A jump over two words, the status, and whether it is taken.
const JUMPS: &[(u16, u16, bool)] = &[
    // JMP, JLT
    (0x1002, 0, true),
    (0x1102, 0x8000, true),
    (0x1102, 0x4000, false),
    (0x1102, 0x2000, false),
    // JLE, JEQ
    (0x1202, 0x4000, true),
    (0x1202, 0xA000, true),
    (0x1202, 0x8000, false),
    (0x1302, 0x2000, true),
    (0x1302, 0xDC00, false),
    // JHE, JGT, JNE
    (0x1402, 0x8000, true),
    (0x1402, 0x2000, true),
    (0x1402, 0x4000, false),
    (0x1502, 0x4000, true),
    (0x1502, 0xBC00, false),
    (0x1602, 0xDC00, true),
    (0x1602, 0x2000, false),
    // JNC, JOC, JNO
    (0x1702, 0xEC00, true),
    (0x1702, 0x1000, false),
    (0x1802, 0x1000, true),
    (0x1802, 0xEC00, false),
    (0x1902, 0xF400, true),
    (0x1902, 0x0800, false),
    // JL, JH, JOP
    (0x1A02, 0x4000, true),
    (0x1A02, 0x8000, false),
    (0x1A02, 0x2000, false),
    (0x1B02, 0x8000, true),
    (0x1B02, 0xA000, false),
    (0x1B02, 0x4000, false),
    (0x1C02, 0x0400, true),
    (0x1C02, 0xF800, false),
];

/// The jump is executed and taken, or not.
fn jumps_as(alloc: Global, row: &(u16, u16, bool)) -> Result<bool, AllocError> {
    let (word, status, taken) = *row;
    let mut machine = standing(alloc, [word, 0], status, [0; 4])?;
    let target = if taken { 0xA008 } else { 0xA004 };
    Ok(machine.step() == StepEnd::Done(word) && machine.pc() == target && machine.st() == status)
}

/// The words of a branch or a context switch, and registers 0 to 3; then program counter, workspace pointer and status,
/// and registers 11, 13, 14 and 15 of the workspace. The status is >3C0F before.
const BRANCHES: &[([u16; 2], [u16; 4], [u16; 3], [u16; 4])] = &[
    // B *R1; BL @>A100; LWPI >2041
    (
        [0x0451, 0],
        [0, 0xA101, 0, 0],
        [0xA100, 0x2000, 0x3C0F],
        [0, 0, 0, 0],
    ),
    (
        [0x06A0, 0xA100],
        [0, 0, 0, 0],
        [0xA100, 0x2000, 0x3C0F],
        [0xA006, 0, 0, 0],
    ),
    (
        [0x02E0, 0x2041],
        [0, 0, 0, 0],
        [0xA006, 0x2040, 0x3C0F],
        [0, 0, 0, 0],
    ),
    // BLWP @>2004; XOP R2,1
    (
        [0x0420, 0x2004],
        [0, 0, 0x2041, 0xA101],
        [0xA100, 0x2040, 0x3C0F],
        [0, 0x2000, 0xA006, 0x3C0F],
    ),
    (
        [0x2C42, 0],
        [0, 0, 0, 0],
        [0xA200, 0x2060, 0x3E0F],
        [0x2004, 0x2000, 0xA004, 0x3C0F],
    ),
];

/// The branch or the context switch is executed and leaves that.
fn branches_as(
    alloc: Global,
    row: &([u16; 2], [u16; 4], [u16; 3], [u16; 4]),
) -> Result<bool, AllocError> {
    let (words, before, [pc, wp, status], kept) = *row;
    let mut machine = standing(alloc, words, 0x3C0F, before)?;
    Ok(
        machine.step() == StepEnd::Done(words[0])
            && machine.pc() == pc
            && machine.wp() == wp
            && machine.st() == status
            && keeps(&machine, kept),
    )
}

/// Registers 11, 13, 14 and 15 hold these words.
fn keeps(machine: &Machine, kept: [u16; 4]) -> bool {
    let [link, wp, pc, status] = kept;
    register(machine, 11) == link
        && register(machine, 13) == wp
        && register(machine, 14) == pc
        && register(machine, 15) == status
}

/// The words of an instruction that is refused or meets a port, and the port; 0 where it is refused.
const STOPS: &[([u16; 2], u16)] = &[
    // BLWP *R1+, where register 13 is a port; XOP *R1+,2, where register 11 is one; A *R1+,@>8C02
    ([0x0431, 0], 0x8800),
    ([0x2CB1, 0], 0x8802),
    ([0xA831, 0x8C02], 0x8C02),
    // LDCR *R1+,0; STCR @>8800,0; X R1; SBO 0; SBZ 0; TB 0
    ([0x3031, 0], 0),
    ([0x3420, 0x8800], 0),
    ([0x0481, 0], 0),
    ([0x1D00, 0], 0),
    ([0x1E00, 0], 0),
    ([0x1F00, 0], 0),
    // IDLE; RSET; CKON; CKOF; LREX
    ([0x0340, 0], 0),
    ([0x0360, 0], 0),
    ([0x03A0, 0], 0),
    ([0x03C0, 0], 0),
    ([0x03E0, 0], 0),
    // no row: an unused bit in LI, LIMI and RTWP, and a code between the forms
    ([0x0211, 0], 0),
    ([0x0301, 0], 0),
    ([0x0381, 0], 0),
    ([0x0C00, 0], 0),
];

/// The instruction stops so, and the machine is as before.
fn stops_as(alloc: Global, row: &([u16; 2], u16)) -> Result<bool, AllocError> {
    let (words, port) = *row;
    let before = [0, 0x2004, 0x87E6, 0xA100];
    let mut machine = standing(alloc, words, 0x3C0F, before)?;
    let end = if port == 0 {
        StepEnd::Refused(0xA002)
    } else {
        StepEnd::Port(port)
    };
    Ok(
        machine.step() == end
            && machine.pc() == 0xA002
            && machine.wp() == 0x2000
            && machine.st() == 0x3C0F
            && machine.count() == 1
            && holds(&machine, before),
    )
}

#[test]
fn instructions_leave_what_the_manual_says(rt: HostRuntime) -> Result<(), Fail> {
    for row in OF_TWO {
        assert!(rt;
            leaves_two(rt.alloc(), row)?,
            "at {:04X} {:04X}",
            row.0,
            row.1
        );
    }
    for row in OF_ONE {
        assert!(rt;
            leaves_one(rt.alloc(), row)?,
            "at {:04X} {:04X}",
            row.0[0],
            row.1
        );
    }
    for row in IN_EVERY_MODE {
        assert!(rt; leaves(rt.alloc(), row)?, "at {:04X}", row.0[0]);
    }
    Ok(())
}

#[test]
fn jumps_branches_and_stops(rt: HostRuntime) -> Result<(), Fail> {
    for row in JUMPS {
        assert!(rt;
            jumps_as(rt.alloc(), row)?,
            "at {:04X} {:04X}",
            row.0,
            row.1
        );
    }
    for row in BRANCHES {
        assert!(rt; branches_as(rt.alloc(), row)?, "at {:04X}", row.0[0]);
    }
    for row in STOPS {
        assert!(rt; stops_as(rt.alloc(), row)?, "at {:04X}", row.0[0]);
    }
    Ok(())
}
