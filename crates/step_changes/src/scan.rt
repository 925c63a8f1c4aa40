//! The places of the changes between two lists of bytes.

ghost use Rattle.std.specs.Prelude.{◌≡◌, ◌≤◌, ◌<◌, ◌+◌, ◌∷◌, [], ◌&&◌, ◌==◌, not, length, drop, slice_index};
ghost use Rattle.std.specs.List.{zip, prefix_len};
ghost use Rattle.change_defs.specs.Changes.{changes_from};
ghost use Rattle.step_changes.specs.Scan as spec;

use lane_scan::first_difference;

/// The first place from `at` on at which two lists of one length differ.
pub fn next_difference(before: &[u8], now: &[u8], at: usize) -> Option<usize>
    requires size { length before.now ≡ length now.now }
    requires at { at ≤ length now.now }
    ensures { spec.IsNext before.now now.now at result }
{
    match first_difference(&before[at..], &now[at..]) {
        Some(ahead) => Some(at + ahead),
        None => None,
    }
}

/// How many neighbours from a place on, at which two lists of one length differ, differ too and are the same byte now.
pub fn stretch(before: &[u8], now: &[u8], from: usize) -> usize
    requires size { length before.now ≡ length now.now }
    requires from { from < length now.now }
    ensures value { result ≡ 1 + prefix_len (spec.is_made (slice_index now.now from)) (drop (from + 1) (zip before.now now.now)) }
    ensures within { from + result ≤ length now.now }
{
    let byte = now[from];
    let mut end = from + 1;
    while end < now.len() && is_made(byte, before[end], now[end]) {
        end += 1;
    }
    end - from
}

/// Whether a place has this byte now, and had another.
fn is_made(byte: u8, old: u8, new: u8) -> bool
    ensures { result ≡ spec.is_made byte (old, new) }
{
    new == byte && old != byte
}
