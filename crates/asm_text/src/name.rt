//! Names of places and values.

ghost use Rattle.std.specs.Prelude.{◌≡◌, ◌≤◌, ◌-◌, ◌++◌, Some, None, IsTrue, if◌then◌else◌, length, take, replicate};
ghost use Rattle.std.specs.Prelude.{refl, nat_eq};
ghost use Rattle.std.specs.Ordering.{nat_cmp};
ghost use Rattle.std.specs.Cmp.{partial_equiv_from_equiv};
ghost use Rattle.std.specs.Cmp.Lexicographic.{pointwise, slice_cmp, nat_list_eq_equiv, nat_list_cmp_total, texts_ties};
ghost use Rattle.std.specs.Cmp.Lexicographic.{texts_po};
ghost use Rattle.source_defs.specs.Names.{is_kept_name, all_printed};
ghost use Rattle.asm_text.specs.Padding.{name_key};

use crate::characters::is_printed;
use std::cmp::Ordering;
use std::marker::Model;

/// The most bytes that a name has.
pub(crate) const LONGEST_NAME: usize = 6;

/// How many bytes a name is kept in.
pub(crate) const KEPT_BYTES: usize = 8;

/// Where among them its length stands.
const LENGTH_AT: usize = 7;

/// A name: one to six printed characters other than the space, from >21 to >7E.
///
/// Names are compared as one number of their eight bytes, the first highest. No byte of a name is 0, so the zeros after
/// it stand below all others, and the numbers are ordered as the names.
#[derive(Clone, Copy, Debug)]
pub struct Name {
    // The bytes of the name, then zeros, and in the last byte how many the name has.
    bytes: [u8; KEPT_BYTES],
}

impl Model for Name {
    ghost use Rattle.std.specs.Prelude.{ℕ, List, take, get_or};
    ghost use Rattle.asm_text.specs.declared.name.TheConstants.{LENGTH_AT};
    ghost use Rattle.asm_text.specs.Padding.{IsPadded, kept_bytes, padded_again};

    ghost Value = { List ℕ };

    ghost view = { λ name. take (get_or name.bytes LENGTH_AT 0) name.bytes };

    ghost invariant = { λ name. IsPadded name.bytes (get_or name.bytes LENGTH_AT 0) };

    ghost inverse = { λ name. record { bytes = kept_bytes name } };

    ghost inverse_ok = { λ a h.
        padded_again (λ bytes. record { bytes = bytes }) a.bytes (get_or a.bytes LENGTH_AT 0) h };
}

impl Name {
    /// The name with these bytes, or `None` where they are no name: too few, too many, a blank, a
    /// control character or a byte above >7E.
    pub fn read(bytes: &[u8]) -> Option<Name>
        ensures { result ≡ (if is_kept_name bytes.now then Some bytes.now else None) }
    {
        if !is_kept_name(bytes) {
            return None;
        }
        Some(Name::of_padded(padded(bytes), bytes.len()))
    }

    /// A name of the given length, which is before zeros.
    pub(crate) fn of_padded(bytes: [u8; KEPT_BYTES], len: usize) -> Name
        requires within { len ≤ 6 }
        requires padded { bytes ≡ take len bytes ++ replicate (8 - len) 0 }
        requires kept { IsTrue (is_kept_name (take len bytes)) }
        ensures { result ≡ take len bytes }
    {
        let mut bytes = bytes;
        bytes[LENGTH_AT] = len as u8;
        Name { bytes }
    }

    /// The bytes of the name.
    pub fn as_bytes(&self) -> &[u8]
        ensures value { result.now ≡ self.now }
        ensures kept { IsTrue (is_kept_name self.now) }
    {
        &self.bytes[..usize::from(self.bytes[LENGTH_AT])]
    }

    /// The bytes that are kept as one number, the first highest. Names compare as their keys do.
    #[tactic(auto, using(crate::proofs::Keys::key_lies))]
    #[inline(always)]
    fn key(&self) -> u64
        ensures key { result ≡ name_key self.now }
        ensures kept { IsTrue (is_kept_name self.now) }
    {
        u64::from_be_bytes(self.bytes)
    }
}

impl PartialEq for Name {
    ghost eq = { pointwise nat_eq };

    ghost laws = { partial_equiv_from_equiv nat_list_eq_equiv };

    #[tactic(auto, using(crate::proofs::Keys::keys_are_distinct))]
    #[inline(always)]
    fn eq(&self, other: &Name) -> bool {
        self.key() == other.key()
    }
}

impl Eq for Name {
    ghost laws = { nat_list_eq_equiv };
}

impl PartialOrd for Name {
    ghost partial_cmp = { λ a b. Some (slice_cmp nat_cmp a b) };

    ghost laws = { texts_po };

    fn partial_cmp(&self, other: &Name) -> Option<Ordering> {
        Some(self.cmp(other))
    }
}

impl Ord for Name {
    ghost cmp = { slice_cmp nat_cmp };

    ghost total = { nat_list_cmp_total };

    ghost matches_partial_cmp = { λ a b. refl };

    ghost matches_eq = { texts_ties };

    #[tactic(auto, using(crate::proofs::Keys::keys_compare))]
    #[inline(always)]
    fn cmp(&self, other: &Name) -> Ordering {
        let (key, other) = (self.key(), other.key());
        if key > other {
            Ordering::Greater
        } else {
            not_above(key, other)
        }
    }
}

/// The order of two keys of which the first is not above the second. It is a call of its own, so that a search in a map
/// passes over each lower name by one test.
#[inline(never)]
fn not_above(key: u64, other: u64) -> Ordering
    requires { key ≤ other }
    ensures { result ≡ nat_cmp key other }
{
    if key == other {
        Ordering::Equal
    } else {
        Ordering::Less
    }
}

/// Whether the bytes are one to six printed characters other than the space.
fn is_kept_name(bytes: &[u8]) -> bool
    ensures { result ≡ is_kept_name bytes.now }
{
    !bytes.is_empty() && bytes.len() <= LONGEST_NAME && all_printed(bytes)
}

fn all_printed(bytes: &[u8]) -> bool
    ensures { result ≡ all_printed bytes.now }
{
    bytes.iter().all(|&byte| is_printed(byte))
}

/// The bytes, followed by as many 0 bytes as make eight.
fn padded(bytes: &[u8]) -> [u8; KEPT_BYTES]
    requires { length bytes.now ≤ 6 }
    ensures { result ≡ bytes.now ++ replicate (8 - length bytes.now) 0 }
{
    let mut padded = [0; KEPT_BYTES];
    padded[..bytes.len()].copy_from_slice(bytes);
    padded
}
