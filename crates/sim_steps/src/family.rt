//! The families of the instructions, each of which a function runs.

ghost use Rattle.std.specs.Prelude.{◌≡◌, Some, true};
ghost use Rattle.sim_rows.specs.Prelude.{One, Two};
ghost use Rattle.sim_steps.specs.Families as spec;

use sim_rows::gpl::{ByteOp, GoOp, GplOperation, OneName, PlainOp, TwoName};

/// A family of instructions.
#[derive(Clone, Copy, Debug, PartialEq, Eq)]
pub enum Family {
    /// Sums, differences and logic: what stores one result.
    Alu,
    /// The shifts.
    Shift,
    /// MUL and DIV.
    MulDiv,
    /// The comparisons and the tests of the status.
    Compare,
    /// B, BR, BS, CASE and EXIT.
    Flow,
    /// CALL, RTN, RTNC, PUSH and FETCH.
    Stack,
    /// MOVE.
    Move,
    /// EX, RAND, BACK and ALL.
    Misc,
    /// A code byte that is no instruction's.
    Refused,
}

/// The family of an operation.
pub fn family_of(operation: Option<GplOperation>) -> Family
    ensures family { result ≡ spec.family_of operation }
    ensures belongs { spec.belongs result operation ≡ true }
{
    match operation {
        Some(GplOperation::One(op)) => family_of_one(op),
        Some(GplOperation::Two(op)) => family_of_two(op),
        Some(GplOperation::Plain(PlainOp::H | PlainOp::GT | PlainOp::CARRY | PlainOp::OVF)) =>
            Family::Compare,
        Some(
            GplOperation::Plain(PlainOp::EXIT)
            | GplOperation::Jump(GoOp::B)
            | GplOperation::Branch(_),
        ) => Family::Flow,
        Some(GplOperation::Plain(PlainOp::RTN | PlainOp::RTNC) | GplOperation::Jump(GoOp::CALL)) =>
            Family::Stack,
        Some(GplOperation::Move(_)) => Family::Move,
        Some(GplOperation::Byte(ByteOp::RAND | ByteOp::BACK | ByteOp::ALL)) => Family::Misc,
        None => Family::Refused,
    }
}

/// The family of an operation on one operand.
fn family_of_one(op: OneName) -> Family
    ensures { result ≡ spec.family_of (Some (One op)) }
{
    match op {
        OneName::ABS
        | OneName::NEG
        | OneName::INV
        | OneName::CLR
        | OneName::INC
        | OneName::DEC
        | OneName::INCT
        | OneName::DECT => Family::Alu,
        OneName::CZ => Family::Compare,
        OneName::CASE => Family::Flow,
        OneName::FETCH | OneName::PUSH => Family::Stack,
    }
}

/// The family of an operation on two operands.
fn family_of_two(op: TwoName) -> Family
    ensures { result ≡ spec.family_of (Some (Two op)) }
{
    match op {
        TwoName::ADD | TwoName::SUB | TwoName::AND | TwoName::OR | TwoName::XOR | TwoName::ST =>
            Family::Alu,
        TwoName::SRA | TwoName::SLL | TwoName::SRL | TwoName::SRC => Family::Shift,
        TwoName::MUL | TwoName::DIV => Family::MulDiv,
        TwoName::CH | TwoName::CHE | TwoName::CGT | TwoName::CGE | TwoName::CEQ | TwoName::CLOG =>
            Family::Compare,
        TwoName::EX => Family::Misc,
    }
}
