//! Programs that are run.

ghost use Rattle.std.specs.Prelude.{IfSome};
ghost use Rattle.gpl_run.specs.Sessions.{IsNew};

use gpl_asm::gpl_assemble;
use gpl_run::{build_interp, load_interpreter};
use std::alloc::Global;
use tms_step::Machine;

/// One of them.
#[derive(Clone, Copy)]
pub(crate) enum Program {
    /// The cartridge of examples/show.
    Show,
    /// Stores at the ends of both memories.
    Ends,
}

impl Program {
    /// Its source.
    pub(crate) fn source(self) -> &'static [u8] {
        match self {
            Program::Show => SHOW,
            Program::Ends => ENDS,
        }
    }
}

/// The machine of the interpreter with a program.
pub(crate) fn machine_of(alloc: Global, program: Program) -> Option<Machine>
    ensures { IfSome result IsNew }
{
    let source = program.source();
    if source.len() > 4096 {
        return None;
    }
    let program = gpl_assemble(alloc, source).ok()?;
    let interpreter = build_interp(alloc).ok()?;
    load_interpreter(alloc, &interpreter, program.image.bytes(), program.entry?).ok()
}

/// A screen, a loop that counts down, and a subroutine that goes on by the count.
const SHOW: &[u8] = b"       BYTE >AA,1,1,0
       DATA 0,MENU,0,0
MENU   DATA 0,START
       BYTE 5
HELLO  TEXT 'HELLO'
REGS   BYTE >00,>E0,>00,>0E,>01,>06,>00,>07
COUNT  EQU >8300
SUM    EQU >8302
START  MOVE 8,R@0,G@REGS
       ALL >20
       BACK >17
       ST @COUNT,3
LOOP   CALL SHOW
       DEC @COUNT
       CZ @COUNT
       BR LOOP
       EXIT
SHOW   CASE @COUNT
       BR NONE
       BR ONE
       BR TWO
       BR THREE
THREE  MOVE 5,V@0,G@HELLO
       RTN
TWO    ST V@>0021,@COUNT
       RTN
ONE    ADD @SUM,>7F
       RTN
NONE   RTN
       END START
";

/// Stores to the last cell and to the last byte of video memory, and then a code byte that is no instruction's.
const ENDS: &[u8] = b"S      ST @>83C1,1
       ST V@>3FFF,2
       BYTE >0F
       END S
";
