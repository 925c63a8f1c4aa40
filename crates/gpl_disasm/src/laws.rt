//! Laws of the definitions that the contracts of this crate cite. Each function does nothing, and its contract is the
//! law.
ghost use Rattle.gpl_listing_defs.specs.Law.{ListingsAreShort, ListingsComeBack};

/// What is listed is assembled to the same bytes at the same addresses, and to no others.
pub fn listings_come_back()
    ensures { ListingsComeBack }
{}

/// A listing has at most 16 bytes for each byte that it lists, and 299 more.
#[tactic(auto, using(gpl_listing_defs::proofs::LengthLaws::listings_are_short))]
pub fn listings_are_short()
    ensures { ListingsAreShort }
{}
