//! The instructions of GPL. GPL Programmer's Guide, the statements.

/// Which memory an operand lies in.
#[derive(Clone, Copy, Debug, PartialEq, Eq)]
pub enum Space {
    /// The processor's, of which GPL sees the scratchpad.
    Cpu,
    /// The video processor's.
    Vdp,
}

/// An operand in memory.
#[derive(Clone, Copy, Debug, PartialEq, Eq)]
pub struct GplOperand {
    /// Where the operand lies; for an indirect one, where the pointer leads to.
    pub space: Space,
    /// Whether the address is a pointer's, which always lies in the processor's memory.
    pub indirect: bool,
    /// An offset from `>8300`, or the address of video memory where the space is `Vdp` and the operand not indirect.
    pub address: u16,
    /// The offset from `>8300` of a word that is added.
    pub index: Option<u8>,
}

/// The second operand of an instruction that has two.
#[derive(Clone, Copy, Debug, PartialEq, Eq)]
pub enum GplSource {
    /// What is in memory.
    At(GplOperand),
    /// The value itself: up to 255 where the instruction is one of bytes.
    Immediate(u16),
}

/// How many bytes are copied.
#[derive(Clone, Copy, Debug, PartialEq, Eq)]
pub enum MoveLength {
    /// What the word in memory says.
    At(GplOperand),
    /// The number itself.
    Immediate(u16),
}

/// Where the copy goes.
#[derive(Clone, Copy, Debug, PartialEq, Eq)]
pub enum MoveTarget {
    /// Memory.
    At(GplOperand),
    /// The registers of the video processor from this one on.
    Register(u8),
}

/// What is copied.
#[derive(Clone, Copy, Debug, PartialEq, Eq)]
pub enum MoveSource {
    /// Memory.
    At(GplOperand),
    /// GROM from an address on.
    Grom(u16),
    /// GROM from an address on to which a word is added; the byte is that word's offset from `>8300`.
    GromIndexed(u16, u8),
}

/// No operand: return from a subroutine, and keep the condition; test a status bit (higher, greater); leave the program;
/// test the carry, the overflow.
#[derive(Clone, Copy, Debug, PartialEq, Eq)]
pub enum PlainOp {
    RTN,
    RTNC,
    H,
    GT,
    EXIT,
    CARRY,
    OVF,
}

/// One byte as operand: a random number up to it; the border colour; fill the screen.
#[derive(Clone, Copy, Debug, PartialEq, Eq)]
pub enum ByteOp {
    RAND,
    BACK,
    ALL,
}

/// A GROM address as operand: branch; call a subroutine.
#[derive(Clone, Copy, Debug, PartialEq, Eq)]
pub enum GoOp {
    B,
    CALL,
}

/// One operand in memory: absolute value, negate, invert, clear, fetch a byte after the call of the subroutine, branch
/// by a table of branches, push onto the data stack, compare with zero, increment, decrement, increment by two,
/// decrement by two.
#[derive(Clone, Copy, Debug, PartialEq, Eq)]
pub enum OneName {
    ABS,
    NEG,
    INV,
    CLR,
    FETCH,
    CASE,
    PUSH,
    CZ,
    INC,
    DEC,
    INCT,
    DECT,
}

/// Two operands, the destination first: add, subtract, multiply, divide, and, or, exclusive or, store, exchange; compare
/// high, high or equal, greater than, greater than or equal (these two as signed numbers), equal, logical; shift right
/// arithmetic, left logical, right logical, right circular.
#[derive(Clone, Copy, Debug, PartialEq, Eq)]
pub enum TwoName {
    ADD,
    SUB,
    MUL,
    DIV,
    AND,
    OR,
    XOR,
    ST,
    EX,
    CH,
    CHE,
    CGT,
    CGE,
    CEQ,
    CLOG,
    SRA,
    SLL,
    SRL,
    SRC,
}

/// Where MOVE copies from and to, as its code byte says.
#[derive(Clone, Copy, Debug, PartialEq, Eq)]
pub enum MoveKind {
    /// From GROM into memory.
    GromToMemory,
    /// From GROM by an index into memory.
    GromIndexedToMemory,
    /// From memory into memory.
    MemoryToMemory,
    /// From GROM into registers of the video processor.
    GromToRegisters,
}

/// What an instruction does, without its operands: a row of the table of codes.
#[derive(Clone, Copy, Debug, PartialEq, Eq)]
pub enum GplOperation {
    Plain(PlainOp),
    Byte(ByteOp),
    Jump(GoOp),
    /// BR, or BS with `true`.
    Branch(bool),
    One(OneName),
    Two(TwoName),
    /// MOVE, by where it copies from and to.
    Move(MoveKind),
}

/// An instruction.
#[derive(Clone, Copy, Debug, PartialEq, Eq)]
pub enum GplInstr {
    Plain(PlainOp),
    Byte {
        op: ByteOp,
        value: u8,
    },
    Jump {
        op: GoOp,
        to: u16,
    },
    /// BR, or BS where `on` is true. `offset`, below `>2000`, is the target's offset in the GROM of the instruction.
    Branch {
        on: bool,
        offset: u16,
    },
    /// `word` is true for the form of words.
    One {
        op: OneName,
        word: bool,
        at: GplOperand,
    },
    /// `word` is true for the form of words.
    Two {
        op: TwoName,
        word: bool,
        dst: GplOperand,
        src: GplSource,
    },
    Move {
        length: MoveLength,
        target: MoveTarget,
        source: MoveSource,
    },
}

/// What is at an address of GROM.
#[derive(Clone, Copy, Debug, PartialEq, Eq)]
pub enum GplRead {
    /// An instruction, and the address after its bytes in the same GROM.
    Instr { instr: GplInstr, next: u16 },
    /// A code byte that is no instruction's.
    Refused(u8),
}
