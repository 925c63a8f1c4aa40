//! Numbers by their ranges.

ghost use Rattle.std.specs.Prelude.{◌≡◌, ◌≤◌, IfErr, IfOk};
ghost use Rattle.gpl_source_defs.specs.Values as spec;
ghost use Rattle.gpl_source_defs.specs.Locations as places;
ghost use Rattle.gpl_source_defs.specs.SecondChecks as checks;
ghost use Rattle.gpl_source_defs.specs.declared.causes.GplCause.TheVariants.{BadOperand, OtherGrom};

use base_defs::GROM_SIZE;
use gpl_defs::Space;
use gpl_source_defs::{GplCause, Location};

/// The first address of the scratchpad.
const SCRATCHPAD: u16 = 0x8300;

/// The address that an operand holds: an address of the video processor's memory, or an offset from the scratchpad's
/// first.
pub(crate) fn held_address(space: Space, indirect: bool, number: u16) -> u16
    ensures { result ≡ spec.held_address space indirect number }
{
    match space {
        Space::Vdp if !indirect => number,
        Space::Vdp | Space::Cpu => number.wrapping_sub(SCRATCHPAD),
    }
}

/// The offset of an index, which lies from >8300 to >83FF.
pub(crate) fn index_of(number: u16) -> Result<u8, GplCause>
    ensures value { result ≡ spec.index_of number }
    ensures cause { IfErr result (λ cause. cause ≡ BadOperand) }
{
    if SCRATCHPAD <= number && number <= SCRATCHPAD + 255 {
        Ok((number - SCRATCHPAD) as u8)
    } else {
        Err(GplCause::BadOperand)
    }
}

/// A number from -128 to 255 as a byte.
pub(crate) fn byte_of(number: u16) -> Result<u8, GplCause>
    ensures value { result ≡ spec.checked_byte number }
    ensures cause { IfErr result (λ cause. cause ≡ BadOperand) }
{
    if number <= 0xFF || number >= 0xFF80 {
        Ok((number % 256) as u8)
    } else {
        Err(GplCause::BadOperand)
    }
}

/// An immediate source, which is a word or a byte.
pub(crate) fn immediate_of(word: bool, number: u16) -> Result<u16, GplCause>
    ensures value { result ≡ checks.immediate_of word number }
    ensures cause { IfErr result (λ cause. cause ≡ BadOperand) }
{
    if word {
        return Ok(number);
    }
    let byte = byte_of(number)?;
    Ok(u16::from(byte))
}

/// The number of a register, which has one byte.
pub(crate) fn register_of(number: u16) -> Result<u8, GplCause>
    ensures value { result ≡ checks.register_of number }
    ensures cause { IfErr result (λ cause. cause ≡ BadOperand) }
{
    if number <= 255 {
        Ok(number as u8)
    } else {
        Err(GplCause::BadOperand)
    }
}

/// The offset of a target in the GROM of its line.
pub(crate) fn branch_offset(at: Location, target: u16) -> Result<u16, GplCause>
    ensures value { result ≡ places.branch_offset at target }
    ensures within { IfOk result (λ offset. offset ≤ 0x1FFF) }
    ensures cause { IfErr result (λ cause. cause ≡ OtherGrom) }
{
    if u32::from(target / GROM_SIZE) == at.grom / u32::from(GROM_SIZE) {
        Ok(target % GROM_SIZE)
    } else {
        Err(GplCause::OtherGrom)
    }
}
