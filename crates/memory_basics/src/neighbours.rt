//! The addresses beside an address: the one after it, and the one before it.

ghost use Rattle.std.specs.Prelude.{◌≡◌};
ghost use Rattle.base_defs.specs.Addresses.{next_in_grom, previous_in_grom};

use base_defs::GROM_SIZE;

/// The address after an address, in the same GROM: the top three bits stay, the low thirteen count up and wrap
/// (GPL Programmer's Guide, on the GROM address counter).
#[inline]
pub fn next_in_grom(at: u16) -> u16
    ensures next { result ≡ next_in_grom at }
    ensures back { previous_in_grom result ≡ at }
{
    at / GROM_SIZE * GROM_SIZE + (at % GROM_SIZE + 1) % GROM_SIZE
}

/// The address before an address, in the same GROM: the top three bits stay, the low thirteen count down and wrap
/// (GPL Programmer's Guide, on the GROM address counter).
#[inline]
pub fn previous_in_grom(at: u16) -> u16
    ensures previous { result ≡ previous_in_grom at }
    ensures back { next_in_grom result ≡ at }
{
    at / GROM_SIZE * GROM_SIZE + (at % GROM_SIZE + (GROM_SIZE - 1)) % GROM_SIZE
}
