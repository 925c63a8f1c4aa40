//! The checksum of a line.

ghost use Rattle.std.specs.Prelude.{◌≡◌, ◌<◌, ◌^◌, ◌%◌, length, sum};
ghost use Rattle.object_defs.specs.Digits as digits;

/// The sum of characters, in 16 bits.
pub(crate) fn sum_of(bytes: &[u8]) -> u16
    requires { length bytes.now < 2 ^ 32 }
    ensures { result ≡ sum bytes.now % 65536 }
{
    let sum: u64 = bytes.iter().map(|&byte| u64::from(byte)).sum();
    (sum % 0x1_0000) as u16
}

/// The checksum of characters with a sum: its two's complement.
pub(crate) fn complement(sum: u16) -> u16
    ensures { result ≡ digits.complement sum }
{
    sum.wrapping_neg()
}

/// The checksum of characters.
#[tactic(auto, unfolding(object_defs::specs::Digits::checksum))]
pub(crate) fn checksum(bytes: &[u8]) -> u16
    requires { length bytes.now < 2 ^ 32 }
    ensures { result ≡ digits.checksum bytes.now }
{
    complement(sum_of(bytes))
}
