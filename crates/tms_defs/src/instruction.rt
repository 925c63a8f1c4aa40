//! The instructions of the processor. TMS9900 data manual, "Instructions".

/// An operand's addressing mode and register. TMS9900 data manual, "Addressing modes".
#[derive(Clone, Copy, Debug, PartialEq, Eq)]
pub struct Place {
    /// 0 to 3: the register, indirect, symbolic or indexed, indirect with autoincrement.
    pub mode: u8,
    /// 0 to 15.
    pub reg: u8,
}

/// Two operands, each in any mode, as words or bytes: set zeros corresponding, subtract, compare, add, move, set ones
/// corresponding.
#[derive(Clone, Copy, Debug, PartialEq, Eq)]
pub enum TwoOp {
    SZC,
    S,
    C,
    A,
    MOV,
    SOC,
}

/// A source in any mode, and a register, a number of bits or a number of an operation: compare ones corresponding,
/// compare zeros corresponding, exclusive or, extended operation, load and store communication register, multiply, divide.
#[derive(Clone, Copy, Debug, PartialEq, Eq)]
pub enum RegOp {
    COC,
    CZC,
    XOR,
    XOP,
    LDCR,
    STCR,
    MPY,
    DIV,
}

/// A register that is shifted: right arithmetic, right logical, left arithmetic, right circular.
#[derive(Clone, Copy, Debug, PartialEq, Eq)]
pub enum ShiftOp {
    SRA,
    SRL,
    SLA,
    SRC,
}

/// One operand in any mode: branch and load workspace pointer, branch, execute, clear, negate, invert, increment,
/// increment by two, decrement, decrement by two, branch and link, swap bytes, set to ones, absolute value.
#[derive(Clone, Copy, Debug, PartialEq, Eq)]
pub enum OneOp {
    BLWP,
    B,
    X,
    CLR,
    NEG,
    INV,
    INC,
    INCT,
    DEC,
    DECT,
    BL,
    SWPB,
    SETO,
    ABS,
}

/// A jump: always; if less than, low or equal, equal, high or equal, greater than, not equal; if no carry, on carry,
/// if no overflow; if low, high, on odd parity. Less and greater are of signed numbers. Then the operations on a bit of
/// the communication register unit: set to one, set to zero, test.
#[derive(Clone, Copy, Debug, PartialEq, Eq)]
pub enum JumpOp {
    JMP,
    JLT,
    JLE,
    JEQ,
    JHE,
    JGT,
    JNE,
    JNC,
    JOC,
    JNO,
    JL,
    JH,
    JOP,
    SBO,
    SBZ,
    TB,
}

/// A register, most with a word that follows the instruction: load, add, and, or, compare immediate; store workspace
/// pointer, store status.
#[derive(Clone, Copy, Debug, PartialEq, Eq)]
pub enum ImmOp {
    LI,
    AI,
    ANDI,
    ORI,
    CI,
    STWP,
    STST,
}

/// No operand but a word that may follow the instruction: load workspace pointer immediate, load interrupt mask
/// immediate, idle, reset, return with workspace pointer, clock on, clock off, load or restart.
#[derive(Clone, Copy, Debug, PartialEq, Eq)]
pub enum BareOp {
    LWPI,
    LIMI,
    IDLE,
    RSET,
    RTWP,
    CKON,
    CKOF,
    LREX,
}

/// What an instruction does, without its operands: a row of the instruction table.
#[derive(Clone, Copy, Debug, PartialEq, Eq)]
pub enum Operation {
    /// With `true` for the form of bytes.
    Two(TwoOp, bool),
    Reg(RegOp),
    Shift(ShiftOp),
    One(OneOp),
    Jump(JumpOp),
    Imm(ImmOp),
    Bare(BareOp),
}

/// An instruction, as its first word says it.
#[derive(Clone, Copy, Debug, PartialEq, Eq)]
pub enum Instr {
    /// `byte` is true for the form with a final B.
    Two {
        op: TwoOp,
        byte: bool,
        dst: Place,
        src: Place,
    },
    /// `d` is a register, a number of bits or the number of an operation, 0 to 15.
    Reg {
        op: RegOp,
        d: u8,
        src: Place,
    },
    /// `count` is 0 to 15, where 0 takes the count from register 0; `w` is the register.
    Shift {
        op: ShiftOp,
        count: u8,
        w: u8,
    },
    One {
        op: OneOp,
        at: Place,
    },
    /// `disp` counts words from the next instruction, or is added to the address of a bit.
    Jump {
        op: JumpOp,
        disp: i8,
    },
    Imm {
        op: ImmOp,
        w: u8,
    },
    Bare {
        op: BareOp,
    },
}
