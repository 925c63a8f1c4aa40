//! What the first checks leave of an instruction.

ghost use Rattle.std.specs.Prelude.{◌≡◌, ◌≤◌};
ghost use Rattle.gpl_source_defs.specs.Skeletons as spec;
ghost use Rattle.gpl_lines.specs.Defined.{model_of_route, model_of_skeleton, model_of_source};

use gpl_defs::{
    ByteOp, GoOp, GplInstr, GplOperand, GplSource, MoveLength, MoveSource, MoveTarget, OneName,
    PlainOp, TwoName,
};
use gpl_forms::size_of;

/// An operand in memory, or the text of an immediate one.
#[derive(Clone, Copy)]
pub enum Source<'a> {
    /// In memory.
    At(GplOperand),
    /// An expression.
    Immediate(&'a [u8]),
}

/// Where MOVE copies to and from.
#[derive(Clone, Copy)]
pub enum Route<'a> {
    /// To memory from memory.
    Within(GplOperand, GplOperand),
    /// To memory from an address in GROM, with an index or without.
    ToMemory(GplOperand, &'a [u8], Option<&'a [u8]>),
    /// To registers of the video processor, from one on, from an address in GROM.
    ToRegisters(&'a [u8], &'a [u8]),
}

/// An instruction, its operands in memory by their addresses and all others by their texts.
#[derive(Clone, Copy)]
pub enum Skeleton<'a> {
    /// An operation without operands.
    Plain(PlainOp),
    /// An operation with a byte.
    Byte(ByteOp, &'a [u8]),
    /// An operation with an address.
    Jump(GoOp, &'a [u8]),
    /// BR, or BS with `true`.
    Branch(bool, &'a [u8]),
    /// An operation with one operand, which is a word with `true`.
    One(OneName, bool, GplOperand),
    /// An operation with a destination and a source, which are words with `true`.
    Two(TwoName, bool, GplOperand, Source<'a>),
    /// MOVE by its length, and by its target and source.
    Move(Source<'a>, Route<'a>),
}

impl Skeleton<'_> {
    /// How many bytes the instruction takes. A value has as many whatever it is.
    pub(crate) fn size(&self) -> u32
        ensures size { result ≡ spec.size_of (model_of_skeleton self.now) }
        ensures most { result ≤ 13 }
    {
        size_of(&self.instr_by_zero())
    }

    /// An instruction that is as long, with 0 for each value that is a text yet.
    fn instr_by_zero(&self) -> GplInstr
        ensures { result ≡ spec.instr_by_zero (model_of_skeleton self.now) }
    {
        match *self {
            Skeleton::Plain(op) => GplInstr::Plain(op),
            Skeleton::Byte(op, _) => GplInstr::Byte { op, value: 0 },
            Skeleton::Jump(op, _) => GplInstr::Jump { op, to: 0 },
            Skeleton::Branch(on, _) => GplInstr::Branch { on, offset: 0 },
            Skeleton::One(op, word, at) => GplInstr::One { op, word, at },
            Skeleton::Two(op, word, dst, source) => GplInstr::Two {
                op,
                word,
                dst,
                src: source_by_zero(source),
            },
            Skeleton::Move(length, route) => move_by_zero(length_by_zero(length), route),
        }
    }
}

fn source_by_zero(source: Source<'_>) -> GplSource
    ensures { result ≡ spec.source_by_zero (model_of_source source.entry) }
{
    match source {
        Source::At(operand) => GplSource::At(operand),
        Source::Immediate(_) => GplSource::Immediate(0),
    }
}

fn length_by_zero(length: Source<'_>) -> MoveLength
    ensures { result ≡ spec.length_by_zero (model_of_source length.entry) }
{
    match length {
        Source::At(operand) => MoveLength::At(operand),
        Source::Immediate(_) => MoveLength::Immediate(0),
    }
}

fn move_by_zero(length: MoveLength, route: Route<'_>) -> GplInstr
    ensures { result ≡ spec.move_by_zero length (model_of_route route.entry) }
{
    let (target, source) = match route {
        Route::Within(to, from) => (MoveTarget::At(to), MoveSource::At(from)),
        Route::ToMemory(to, _, None) => (MoveTarget::At(to), MoveSource::Grom(0)),
        Route::ToMemory(to, _, Some(_)) => (MoveTarget::At(to), MoveSource::GromIndexed(0, 0)),
        Route::ToRegisters(..) => (MoveTarget::Register(0), MoveSource::Grom(0)),
    };
    GplInstr::Move {
        length,
        target,
        source,
    }
}
