//! How the outcome of a line is placed.

ghost use Rattle.std.specs.Prelude.{◌≡◌, ◌≤◌, ◌+◌, ℕ, length, Ok, Err};
ghost use Rattle.gpl_defs.specs.Image.{placed};
ghost use Rattle.gpl_source_defs.specs.declared.causes.GplCause.TheVariants.{Overlap};
ghost use Rattle.gpl_source_defs.specs.Programs.{bytes_in, overlaps};
ghost use Rattle.gpl_lines.specs.Defined.{model_of_outcome};
ghost use Rattle.gpl_asm.specs.Replay.{Puts};

use gpl_forms::GromImage;
use gpl_lines::Outcome;
use gpl_source_defs::{GplCause, Location};

/// Places the outcome of a line, which ends before the addresses do, and gives the entry after it; or refuses it if a
/// byte of it was placed before.
///
/// # Errors
/// `Overlap` comes exactly where a byte of the line is at an address at which one was placed; then the image is as
/// before.
pub fn put(
    image: &mut GromImage,
    entry: Option<u16>,
    at: Location,
    outcome: &Outcome,
) -> Result<Option<u16>, GplCause>
    requires { at.number + length (bytes_in (model_of_outcome outcome.now)) ≤ 65536 }
    ensures { Puts image.old entry at (model_of_outcome outcome.now) result image.new }
{
    match outcome {
        Outcome::Bytes(bytes) => {
            if overlaps(image, at.number, bytes.as_slice()) {
                return Err(GplCause::Overlap);
            }
            put_all(image, at.number, bytes.as_slice());
            Ok(entry)
        }
        Outcome::Entry(address) => Ok(Some(*address)),
    }
}

/// Whether one of some bytes from an address on is where one was placed.
fn overlaps(image: &GromImage, at: u32, bytes: &[u8]) -> bool
    requires { at + length bytes.now ≤ 65536 }
    ensures { result ≡ overlaps image.now at bytes.now }
{
    let mut place = at;
    let mut rest = bytes;
    while let [_, others @ ..] = rest {
        if image.is_written(address(place)) {
            return true;
        }
        place += 1;
        rest = others;
    }
    false
}

/// Puts bytes into an image, the first at an address and the next after it.
fn put_all(image: &mut GromImage, at: u32, bytes: &[u8])
    requires { at + length bytes.now ≤ 65536 }
    ensures { image.new ≡ placed image.old at bytes.now }
{
    if !bytes.is_empty() {
        image.put_all(address(at), bytes);
    }
}

/// A place as an address.
fn address(place: u32) -> u16
    requires { place ≤ 65535 }
    ensures { result ≡ place }
{
    place as u16
}
