//! The operands of an instruction, as text.
ghost use Rattle.std.specs.Prelude.{◌≡◌, ◌≤◌, ◌<◌, ◌+◌, ◌++◌, length};
ghost use Rattle.arrayvec.specs.ArrayString.{array_string_len};
ghost use Rattle.gpl_defs.specs.Bytes.{FitsSource};
ghost use Rattle.gpl_listing_defs.specs.Texts as spec;

use arrayvec::ArrayString;
use asm_text::{push_byte, push_word};
use gpl_defs::SCRATCHPAD;
use gpl_forms::{GplOperand, GplSource, MoveLength, MoveSource, MoveTarget, Space};

/// Appends an operand in memory.
#[inline]
#[tactic(auto, using(std::proofs::Common::append_assoc), unfolding(gpl_listing_defs::specs::Texts::operand_text))]
pub(crate) fn push_operand<const N: usize>(text: &mut ArrayString<N>, operand: GplOperand)
    requires { array_string_len text.old + 15 ≤ N }
    ensures text { text.new.bytes ≡ text.old.bytes ++ spec.operand_text operand }
    ensures size { array_string_len text.new ≤ array_string_len text.old + 15 }
{
    push_prefix(text, operand.space, operand.indirect);
    push_word(text, shown_address(operand));
    push_index(text, operand.index);
}

/// Appends what an operand begins with.
#[tactic(auto, using(std::proofs::Common::append_assoc))]
fn push_prefix<const N: usize>(text: &mut ArrayString<N>, space: Space, indirect: bool)
    requires { array_string_len text.old + 2 ≤ N }
    ensures text { text.new.bytes ≡ text.old.bytes ++ spec.prefix space indirect }
    ensures size { array_string_len text.new ≤ array_string_len text.old + 2 }
{
    if let Space::Vdp = space {
        text.push('V');
    }
    text.push(if indirect { '*' } else { '@' });
}

/// The address that an operand shows.
fn shown_address(operand: GplOperand) -> u16
    ensures { result ≡ spec.shown_address operand.space operand.indirect operand.address }
{
    match (operand.space, operand.indirect) {
        (Space::Vdp, false) => operand.address,
        _ => operand.address.wrapping_add(SCRATCHPAD),
    }
}

/// Appends an index, where there is one.
#[tactic(auto, using(std::proofs::Common::append_assoc))]
fn push_index<const N: usize>(text: &mut ArrayString<N>, index: Option<u8>)
    requires { array_string_len text.old + 8 ≤ N }
    ensures text { text.new.bytes ≡ text.old.bytes ++ spec.index_text index }
    ensures size { array_string_len text.new ≤ array_string_len text.old + 8 }
{
    if let Some(index) = index {
        text.push_str("(@");
        push_word(text, SCRATCHPAD + u16::from(index));
        text.push_str(")");
    }
}

/// Appends a source, an immediate one as a word or a byte.
pub(crate) fn push_source<const N: usize>(text: &mut ArrayString<N>, word: bool, src: &GplSource)
    requires fits { FitsSource word src.now }
    requires room { array_string_len text.old + 15 ≤ N }
    ensures text { text.new.bytes ≡ text.old.bytes ++ spec.source_text word src.now }
    ensures size { array_string_len text.new ≤ array_string_len text.old + 15 }
{
    match src {
        GplSource::At(operand) => push_operand(text, *operand),
        GplSource::Immediate(value) => {
            if word {
                push_word(text, *value);
            } else {
                push_byte(text, *value as u8);
            }
        }
    }
}

/// Appends a length of MOVE.
pub(crate) fn push_length<const N: usize>(text: &mut ArrayString<N>, length: &MoveLength)
    requires { array_string_len text.old + 15 ≤ N }
    ensures text { text.new.bytes ≡ text.old.bytes ++ spec.length_text length.now }
    ensures size { array_string_len text.new ≤ array_string_len text.old + 15 }
{
    match length {
        MoveLength::At(operand) => push_operand(text, *operand),
        MoveLength::Immediate(count) => push_word(text, *count),
    }
}

/// Appends a target of MOVE.
#[tactic(auto, using(std::proofs::Common::append_assoc))]
pub(crate) fn push_target<const N: usize>(text: &mut ArrayString<N>, target: &MoveTarget)
    requires { array_string_len text.old + 15 ≤ N }
    ensures text { text.new.bytes ≡ text.old.bytes ++ spec.target_text target.now }
    ensures size { array_string_len text.new ≤ array_string_len text.old + 15 }
{
    match target {
        MoveTarget::At(operand) => push_operand(text, *operand),
        MoveTarget::Register(number) => {
            text.push_str("R@");
            push_byte(text, *number);
        }
    }
}

/// Appends a source of MOVE.
#[tactic(auto, using(std::proofs::Common::append_assoc))]
pub(crate) fn push_from<const N: usize>(text: &mut ArrayString<N>, source: &MoveSource)
    requires { array_string_len text.old + 15 ≤ N }
    ensures text { text.new.bytes ≡ text.old.bytes ++ spec.from_text source.now }
    ensures size { array_string_len text.new ≤ array_string_len text.old + 15 }
{
    match source {
        MoveSource::At(operand) => push_operand(text, *operand),
        MoveSource::Grom(address) => {
            text.push_str("G@");
            push_word(text, *address);
        }
        MoveSource::GromIndexed(address, index) => {
            text.push_str("G@");
            push_word(text, *address);
            push_index(text, Some(*index));
        }
    }
}
