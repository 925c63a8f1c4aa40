//! The listing of an image of GROM, from its first to its last written byte.
ghost use Rattle.std.specs.Prelude.{◌≡◌, ◌≤◌, ◌<◌, ◌+◌, ◌-◌, ◌++◌, ℕ, List, [], ◌∷◌, length, map, IfOk};
ghost use Rattle.arrayvec.specs.ArrayString.{array_string_len};
ghost use Rattle.bench_io.specs.Written.{Written};
ghost use Rattle.source_defs.specs.Digits.{hex_word};
ghost use Rattle.source_defs.specs.ListedLines.{listing_line};
ghost use Rattle.gpl_defs.specs.Image.{AreBytesOf, low_of, high_of};
ghost use Rattle.gpl_listing_defs.specs.Listing as spec;

use crate::line::{Line, MARGIN, list_line};
use asm_text::push_word;
use base_defs::GROM_SIZE;
use bench_io::{Failed, Sink, put_chunk};
use gpl_forms::GromImage;

/// Writes the listing of an image from its lowest to its highest written address, each line by one call. A line for
/// GROM and one for AORG are before the first byte, and again where a byte begins a GROM; the last line is END. An
/// image in which nothing is written is listed as if it began at 0.
///
/// # Errors
/// `Failed` comes only where the sink's count of faults rose in this call. It then got a front of the listing.
pub fn disassemble<O: Sink>(image: &GromImage, out: &mut O) -> Result<(), Failed>
    ensures { (bytes : List ℕ) → AreBytesOf image.now bytes → Written result (O.state out.old) (O.state out.new)
        (spec.grom_listing bytes (low_of image.now) (high_of image.now)) }
{
    put_listing(image.bytes(), image.low() as u16, image.high(), out)
}

/// Writes the listing of 65,536 bytes from an address up to another.
#[tactic(auto, unfolding(gpl_listing_defs::specs::Listing::grom_listing))]
fn put_listing<O: Sink>(image: &[u8], low: u16, high: u32, out: &mut O) -> Result<(), Failed>
    requires size { length image.now ≡ 65536 }
    requires end { high ≤ 65536 }
    ensures { Written result (O.state out.old) (O.state out.new) (spec.grom_listing image.now low high) }
{
    put_origin(low, out)?;
    put_lines(image, low, high, out)?;
    put_chunk(out, b"       END\n")
}

/// Writes the lines of the bytes from an address up to another.
fn put_lines<O: Sink>(image: &[u8], low: u16, high: u32, out: &mut O) -> Result<(), Failed>
    requires size { length image.now ≡ 65536 }
    requires end { high ≤ 65536 }
    ensures { Written result (O.state out.old) (O.state out.new)
        (map listing_line (spec.texts_between image.now low high low)) }
{
    let mut at = u32::from(low);
    while at < high {
        at = put_entry(image, low, at as u16, high, out)?;
    }
    Ok(())
}

/// Writes the line of the byte at an address, after those for GROM and AORG where it begins a GROM and is not the
/// first, and gives the address after the bytes that it stands for.
fn put_entry<O: Sink>(
    image: &[u8],
    low: u16,
    at: u16,
    high: u32,
    out: &mut O,
) -> Result<u32, Failed>
    requires size { length image.now ≡ 65536 }
    requires before { at < high }
    requires end { high ≤ 65536 }
    ensures lines { Written result (O.state out.old) (O.state out.new)
        (map listing_line (spec.origin_texts_at low at ++ ((spec.listed_at image.now at high).text ∷ []))) }
    ensures next { IfOk result (λ next. next ≡ at + (spec.listed_at image.now at high).size) }
    ensures after { IfOk result (λ next. at < next) }
    ensures within { IfOk result (λ next. next ≤ high) }
{
    put_origin_at(low, at, out)?;
    put_line(image, at, high, out)
}

/// Writes the lines for GROM and AORG of an address that begins a GROM and is not the first of all.
fn put_origin_at<O: Sink>(low: u16, at: u16, out: &mut O) -> Result<(), Failed>
    ensures { Written result (O.state out.old) (O.state out.new) (map listing_line (spec.origin_texts_at low at)) }
{
    if at % GROM_SIZE == 0 && at != low {
        return put_origin(at, out);
    }
    Ok(())
}

/// Writes the line of the byte at an address, and gives the address after the bytes that it stands for.
fn put_line<O: Sink>(image: &[u8], at: u16, high: u32, out: &mut O) -> Result<u32, Failed>
    requires size { length image.now ≡ 65536 }
    requires before { at < high }
    requires end { high ≤ 65536 }
    ensures lines { Written result (O.state out.old) (O.state out.new)
        (listing_line (spec.listed_at image.now at high).text ∷ []) }
    ensures next { IfOk result (λ next. next ≡ at + (spec.listed_at image.now at high).size) }
    ensures after { IfOk result (λ next. at < next) }
    ensures within { IfOk result (λ next. next ≤ high) }
{
    let (mut line, next) = list_line(image, at, high);
    line.push_str("\n");
    put_chunk(out, line.as_str().as_bytes())?;
    Ok(next)
}

/// Writes the lines for GROM and AORG of an address.
fn put_origin<O: Sink>(at: u16, out: &mut O) -> Result<(), Failed>
    ensures { Written result (O.state out.old) (O.state out.new) (map listing_line (spec.origin_texts at)) }
{
    put_chunk(
        out,
        named_line("GROM ", at / GROM_SIZE * GROM_SIZE)
            .as_str()
            .as_bytes(),
    )?;
    put_chunk(out, named_line("AORG ", at % GROM_SIZE).as_str().as_bytes())
}

/// The line of a directive, which a blank ends, with a word.
#[tactic(auto, using(std::proofs::Common::append_assoc))]
fn named_line(directive: &str, word: u16) -> Line
    requires { length directive.now ≤ 5 }
    ensures { result.bytes ≡ listing_line (directive.now ++ hex_word word) }
{
    let mut line = Line::new();
    line.push_str(MARGIN);
    line.push_str(directive);
    push_word(&mut line, word);
    line.push_str("\n");
    line
}
