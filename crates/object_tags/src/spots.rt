//! The places and numbers of a module, by their kind.

ghost use Rattle.std.specs.Prelude.{◌≡◌};
ghost use Rattle.object_defs.specs.Laws.{FitsSpot};
ghost use Rattle.object_defs.specs.Modules as modules;
ghost use Rattle.object_defs.specs.Tags as tags;

use object_defs::{Kind, Spot};

/// The kind of a spot.
pub(crate) fn kind_of(spot: Spot) -> Kind
    ensures { result ≡ tags.kind_of spot }
{
    match spot {
        Spot::Absolute(_) => Kind::Absolute,
        Spot::Relocatable(_) => Kind::Relocatable,
    }
}

/// The number of a spot, without its kind.
pub(crate) fn number_of(spot: Spot) -> u16
    ensures { result ≡ modules.number_of spot }
{
    match spot {
        Spot::Absolute(number) | Spot::Relocatable(number) => number,
    }
}

/// The spot of a kind with a number.
pub(crate) fn spot(kind: Kind, number: u16) -> Spot
    ensures { result ≡ tags.spot kind number }
{
    match kind {
        Kind::Absolute => Spot::Absolute(number),
        Kind::Relocatable => Spot::Relocatable(number),
    }
}

/// The place without its lowest bit.
pub(crate) fn even(at: Spot) -> Spot
    ensures { result ≡ modules.moved (modules.even at) 0 }
{
    match at {
        Spot::Absolute(number) => Spot::Absolute(number - number % 2),
        Spot::Relocatable(number) => Spot::Relocatable(number - number % 2),
    }
}

/// The place two bytes after a place.
pub(crate) fn place_after(at: Spot) -> Spot
    ensures place { result ≡ modules.moved at 2 }
    ensures fits { FitsSpot at }
{
    match at {
        Spot::Absolute(number) => Spot::Absolute(number.wrapping_add(2)),
        Spot::Relocatable(number) => Spot::Relocatable(number.wrapping_add(2)),
    }
}
