//! The names of files.

ghost use Rattle.std.specs.Prelude.{◌≡◌, ◌≤◌, ◌-◌, ◌++◌, Some, None, IsTrue, if◌then◌else◌, length, replicate};
ghost use Rattle.std.specs.Prelude.{refl, nat_eq};
ghost use Rattle.std.specs.Ordering.{nat_cmp};
ghost use Rattle.std.specs.Cmp.{partial_equiv_from_equiv};
ghost use Rattle.std.specs.Cmp.Lexicographic.{pointwise, slice_cmp, nat_list_eq_equiv, nat_list_cmp_total, texts_ties};
ghost use Rattle.std.specs.Cmp.Lexicographic.{texts_po};
ghost use Rattle.shelf_defs.specs.Files.{is_file_character, all_file_characters, is_file_name};
ghost use Rattle.asm_list_defs.specs.Rows.{same_file};

use std::cmp::Ordering;
use std::marker::Model;

/// The most bytes that a file's name has.
const LONGEST_FILE_NAME: usize = 60;

/// The name of a file: 1 to 60 characters, each a letter, a digit, `.`, `_` or `-`, of which the first is no `.`.
/// Contracts see it as the list of its bytes.
#[derive(Clone, Copy, Debug)]
pub struct FileName {
    bytes: [u8; LONGEST_FILE_NAME],
    // The bytes after these are 0.
    len: u8,
}

impl Model for FileName {
    ghost use Rattle.std.specs.Prelude.{ℕ, List, ◌++◌, ◌-◌, length, take, replicate};
    ghost use Rattle.bench_shelf.specs.Padding.{IsPadded, padded_again};

    ghost Value = { List ℕ };

    ghost view = { λ name. take name.len name.bytes };

    ghost invariant = { λ name. IsPadded name.bytes name.len };

    ghost inverse = { λ name. record { bytes = name ++ replicate (60 - length name) 0; len = length name } };

    ghost inverse_ok = { λ a h. padded_again (λ bytes len. record { bytes = bytes; len = len }) a.bytes a.len h };
}

impl FileName {
    /// The name with these bytes, or `None` where they are no name of a file: none or more than 60, one that is neither
    /// a letter nor a digit nor one of `.`, `_` and `-`, or a `.` at the front.
    pub fn read(bytes: &[u8]) -> Option<FileName>
        ensures { result ≡ (if is_file_name bytes.now then Some bytes.now else None) }
    {
        if !is_file_name(bytes) {
            return None;
        }
        Some(FileName {
            bytes: padded(bytes),
            len: bytes.len() as u8,
        })
    }

    /// The bytes of the name.
    pub fn as_bytes(&self) -> &[u8]
        ensures value { result.now ≡ self.now }
        ensures name { IsTrue (is_file_name self.now) }
    {
        &self.bytes[..usize::from(self.len)]
    }
}

impl PartialEq for FileName {
    ghost eq = { pointwise nat_eq };

    ghost laws = { partial_equiv_from_equiv nat_list_eq_equiv };

    fn eq(&self, other: &FileName) -> bool {
        self.as_bytes() == other.as_bytes()
    }
}

impl Eq for FileName {
    ghost laws = { nat_list_eq_equiv };
}

impl PartialOrd for FileName {
    ghost partial_cmp = { λ a b. Some (slice_cmp nat_cmp a b) };

    ghost laws = { texts_po };

    fn partial_cmp(&self, other: &FileName) -> Option<Ordering> {
        Some(self.cmp(other))
    }
}

impl Ord for FileName {
    ghost cmp = { slice_cmp nat_cmp };

    ghost total = { nat_list_cmp_total };

    ghost matches_partial_cmp = { λ a b. refl };

    ghost matches_eq = { texts_ties };

    fn cmp(&self, other: &FileName) -> Ordering {
        self.as_bytes().cmp(other.as_bytes())
    }
}

/// Whether the bytes are the name of a file.
fn is_file_name(bytes: &[u8]) -> bool
    ensures { result ≡ is_file_name bytes.now }
{
    !bytes.is_empty()
        && bytes.len() <= LONGEST_FILE_NAME
        && bytes[0] != b'.'
        && all_file_characters(bytes)
}

/// Whether each of the bytes may be in the name of a file.
fn all_file_characters(bytes: &[u8]) -> bool
    ensures { result ≡ all_file_characters bytes.now }
{
    bytes.iter().all(|&byte| is_file_character(byte))
}

/// Whether a byte may be in the name of a file: a letter, a digit, `.`, `_` or `-`.
fn is_file_character(byte: u8) -> bool
    ensures { result ≡ is_file_character byte }
{
    byte.is_ascii_alphabetic()
        || byte.is_ascii_digit()
        || byte == b'.'
        || byte == b'_'
        || byte == b'-'
}

/// The bytes, followed by as many 0 bytes as make sixty.
fn padded(bytes: &[u8]) -> [u8; LONGEST_FILE_NAME]
    requires { length bytes.now ≤ 60 }
    ensures { result ≡ bytes.now ++ replicate (60 - length bytes.now) 0 }
{
    let mut padded = [0; LONGEST_FILE_NAME];
    padded[..bytes.len()].copy_from_slice(bytes);
    padded
}

/// Whether two lines are in the same file, or in the source itself, by the names of their files.
pub fn same_file(one: &Option<FileName>, other: &Option<FileName>) -> bool
    ensures same { result ≡ same_file one.now other.now }
    ensures equal { IsTrue result → one.now ≡ other.now }
{
    match (one, other) {
        (None, None) => true,
        (Some(one), Some(other)) => one.as_bytes() == other.as_bytes(),
        _ => false,
    }
}
