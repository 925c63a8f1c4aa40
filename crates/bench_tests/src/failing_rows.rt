//! Runs in which one call fails, or would if it were made, and all that they write.

use super::run::{run, run_with};
use bench_shelf::{FileName, MemShelf};
use report_defs::Status;
use std::alloc::{AllocError, Global};
use std::test::Fail;

/// Words, an input, the call of `take` that fails, how they end, and the standard output.
const TAKES: &[(&[&[u8]], &[u8], u64, Status, &[u8])] = &[
    // an input that is not read
    (
        &[b"demo", b"1"],
        b"",
        0,
        Status::Done,
        b"demo 1\nimage 8\nsteps 1\npad 565\nvdp 0\nexit\ncount 89\n",
    ),
    (&[b"gasm"], b" RTN\n", 0, Status::ReadFault, b""),
    (&[b"gasm"], b" RTN\n", 1, Status::ReadFault, b""),
    (&[b"gasm"], b" RTN\n", 2, Status::Done, b"\0"),
    // a read fault comes before all that the input says
    (&[b"gasm"], b" OOPS\n", 1, Status::ReadFault, b""),
];

/// A source of a screen, a loop that counts down, and a subroutine that goes on by the count.
const SHOW: &[u8] = b" BYTE >AA,1,1,0
 DATA 0,MENU,0,0
MENU DATA 0,START
 BYTE 5
HELLO TEXT 'HELLO'
REGS BYTE >00,>E0,>00,>0E,>01,>06,>00,>07
COUNT EQU >8300
SUM EQU >8302
START MOVE 8,R@0,G@REGS
 ALL >20
 BACK >17
 ST @COUNT,3
LOOP CALL SHOW
 DEC @COUNT
 CZ @COUNT
 BR LOOP
 EXIT
SHOW CASE @COUNT
 BR NONE
 BR ONE
 BR TWO
 BR THREE
THREE MOVE 5,V@0,G@HELLO
 RTN
TWO ST V@>0021,@COUNT
 RTN
ONE ADD @SUM,>7F
 RTN
NONE RTN
 END START";

/// The same for a call of `put`.
const PUTS: &[(&[&[u8]], &[u8], u64, Status, &[u8])] = &[
    (
        &[b"asm"],
        b"",
        1,
        Status::WriteFault,
        b"00000        7FDD9F                                                         0001\n",
    ),
    (
        &[b"exec", b"1"],
        b"00000        20000F\n:\n",
        2,
        Status::WriteFault,
        b"end refused >A000\npad\n",
    ),
    (
        &[b"demo", b"1"],
        b"",
        2,
        Status::WriteFault,
        b"demo 1\nimage 8\n",
    ),
    (
        &[b"run", b"9"],
        b"S EXIT\n END S\n",
        2,
        Status::WriteFault,
        b"exit at >6000\ngpl >6000 S00 D9F R7E\n",
    ),
    (
        &[b"trace", b"5"],
        b"S CALL GET\n BYTE >5A\n EXIT\nGET FETCH @>8300\n RTN\n END S",
        1,
        Status::WriteFault,
        b"     1 >6000 S00 D9F R7E CALL >6005 C3 >8373=80\n",
    ),
    (
        &[b"trace", b"100"],
        SHOW,
        2,
        Status::WriteFault,
        b"     1 >601E S00 D9F R7E MOVE >0008,R@>00,G@>6016 W5 1=E0\n     \
          2 >6024 S00 D9F R7E ALL >20 V768 >0000=20\n",
    ),
    (&[b"gasm"], b" RTN\n", 0, Status::WriteFault, b""),
    (&[b"gasm"], b" RTN\n", 1, Status::Done, b"\0"),
    (&[b"gasm"], b" OOPS\n", 0, Status::WriteFault, b""),
    // nothing is put where the image is empty
    (&[b"gasm"], b" END\n", 0, Status::Done, b""),
];

/// Whether a run in which a call of `take` or `put` fails ends so, with nothing on the error output.
fn ends_as(
    alloc: Global,
    words: &[&[u8]],
    input: &[u8],
    take_fails: &[u64],
    put_fails: &[u64],
    status: Status,
    out: &[u8],
) -> Result<bool, AllocError> {
    let ended = run(alloc, words, input.to_vec(alloc)?, take_fails, put_fails)?;
    Ok(ended.status == status && ended.out.bytes() == out && ended.err.bytes().is_empty())
}

#[test]
fn a_take_that_fails_ends_a_run_that_makes_it(rt: HostRuntime) -> Result<(), Fail> {
    for &(words, input, call, status, out) in TAKES {
        assert!(rt;
            ends_as(rt.alloc(), words, input, &[call], &[], status, out)?,
            "{input:?}"
        );
    }
    Ok(())
}

#[test]
fn a_put_that_fails_ends_a_run_that_makes_it(rt: HostRuntime) -> Result<(), Fail> {
    for &(words, input, call, status, out) in PUTS {
        assert!(rt;
            ends_as(rt.alloc(), words, input, &[], &[call], status, out)?,
            "{input:?}"
        );
    }
    Ok(())
}

/// An object that uses a name of another.
const OBJECT: &[u8] = b"00008        A0000B0000C0000BC060C000230006FOO   200007F57CF\n:\n";

/// The object text of one word.
const FOUR: &[u8] =
    b"00002        A0000B00047FBD0F                                               0001\n\
      :                                                                           0002\n";

/// Words, an input, a file and its bytes, the call of the shelf that fails, how they end, and the standard output. A
/// file is opened by one call and read by two.
const SHELVES: &[(&[&[u8]], &[u8], &[u8], &[u8], u64, Status, &[u8])] = &[
    (
        &[b"asm"],
        b" COPY \"A.SRC\"\n END\n",
        b"A.SRC",
        b" LI R1,>1234\n A R1,R2\n RT\n",
        0,
        Status::ReadFault,
        b"",
    ),
    (
        &[b"link", b"ONE"],
        b"",
        b"ONE",
        OBJECT,
        1,
        Status::ReadFault,
        b"",
    ),
    (
        &[b"asm"],
        b" COPY 'D4'\n",
        b"D4",
        b" DATA 4\n",
        0,
        Status::ReadFault,
        b"",
    ),
    (
        &[b"asm"],
        b" COPY 'D4'\n",
        b"D4",
        b" DATA 4\n",
        1,
        Status::ReadFault,
        b"",
    ),
    (
        &[b"asm"],
        b" COPY 'D4'\n",
        b"D4",
        b" DATA 4\n",
        2,
        Status::ReadFault,
        b"",
    ),
    (
        &[b"asm"],
        b" COPY 'D4'\n",
        b"D4",
        b" DATA 4\n",
        3,
        Status::Done,
        FOUR,
    ),
];

/// A shelf of one file, of which a call fails.
fn shelf_of(alloc: Global, name: &[u8], bytes: &[u8], fails: u64) -> Result<MemShelf, AllocError> {
    let mut files = Vec::new(alloc);
    if let Some(name) = FileName::read(name) {
        files.push((name, bytes.to_vec(alloc)?))?;
    }
    Ok(MemShelf::new(files, Vec::from_slice(alloc, &[fails])?))
}

/// Whether a run over a shelf ends so, with nothing on the error output.
fn ends_over(
    alloc: Global,
    words: &[&[u8]],
    input: &[u8],
    mut shelf: MemShelf,
    status: Status,
    out: &[u8],
) -> Result<bool, AllocError> {
    let ended = run_with(alloc, words, input.to_vec(alloc)?, &mut shelf, &[], &[])?;
    Ok(ended.status == status && ended.out.bytes() == out && ended.err.bytes().is_empty())
}

#[test]
fn a_shelf_that_fails_is_a_read_fault(rt: HostRuntime) -> Result<(), Fail> {
    for &(words, input, name, bytes, call, status, out) in SHELVES {
        let shelf = shelf_of(rt.alloc(), name, bytes, call)?;
        assert!(rt;
            ends_over(rt.alloc(), words, input, shelf, status, out)?,
            "{input:?}"
        );
    }
    Ok(())
}
