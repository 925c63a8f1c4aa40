//! Laws of the definitions. Each function does nothing, and its contract is the law.

ghost use Rattle.word_listings.specs.Law.{EnteredListingsComeBack, InnerListingsComeBack, WordListingsAreShort};
ghost use Rattle.word_listings.specs.Law.{WordListingsComeBack};
ghost use Rattle.word_listings.specs.Linking.{EnteredListingsLink, ModulesOfWordsLink};

/// The listing of bytes from an even address on is assembled to their words there and to nothing else; or it is refused
/// for the first of its jumps that wraps around the ends of memory, exactly where there is one.
#[tactic(auto, using(crate::proofs::ListingLaw::word_listings_come_back))]
pub fn word_listings_come_back()
    ensures { WordListingsComeBack }
{}

/// So the listing of bytes that stand far enough from the ends of memory is never refused.
#[tactic(auto, using(crate::proofs::ListingLaw::inner_listings_come_back))]
pub fn inner_listings_come_back()
    ensures { InnerListingsComeBack }
{}

/// Where END names an entry by its address, the module has that entry, and is the same otherwise.
#[tactic(auto, using(crate::proofs::ListingLaw::entered_listings_come_back))]
pub fn entered_listings_come_back()
    ensures { EnteredListingsComeBack }
{}

/// A listing has at most 26 bytes for each word, and 45 for its other lines.
#[tactic(auto, using(crate::proofs::ShortLaw::word_listings_are_short))]
pub fn word_listings_are_short()
    ensures { WordListingsAreShort }
{}

/// The object text of a module of words with an entry reads as that module alone, and this is linked to these words and
/// to nothing else, with that entry; or it is refused for the first address at which nothing is loaded.
pub fn modules_of_words_link()
    ensures { ModulesOfWordsLink }
{}

/// So where the listing of bytes with an entry after END is assembled, the object text of its module is linked to the
/// words of these bytes and to nothing else, with that entry; or it is refused likewise.
pub fn entered_listings_link()
    ensures { EnteredListingsLink }
{}
