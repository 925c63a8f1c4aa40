//! What an image shows after some writes.

use gpl_forms::GromImage;
use std::test::Fail;

/// Writes, each with the written bytes after it, the lowest of their addresses first.
const WRITES: &[(u16, u8, u32, &[u8])] = &[
    (0x6002, 7, 0x6002, &[7]),
    (0x6004, 9, 0x6002, &[7, 0, 9]),
    (0x6001, 0, 0x6001, &[0, 7, 0, 9]),
    (0x6004, 8, 0x6001, &[0, 7, 0, 8]),
    (0xFFFF, 1, 0x6001, &[]),
    (0, 1, 0, &[]),
];

/// Whether the written bytes begin at an address and are those, of which none stands for any that are too many to list.
fn is_written_as(image: &GromImage, low: u32, bytes: &[u8]) -> bool {
    image.low() == low
        && (bytes.is_empty() && image.high() == 0x10000
            || (image.high() - image.low()) as usize == bytes.len() && image.written() == bytes)
}

/// Whether the image distinguishes the addresses that were written from others.
fn distinguishes_written(image: &GromImage) -> bool {
    image.is_written(0x6001)
        && image.is_written(0xFFFF)
        && !image.is_written(0x6003)
        && image.bytes().get(0x6004) == Some(&8)
        && image.bytes().get(0x6003) == Some(&0)
}

#[test]
fn shows_what_was_written(rt: HostRuntime) -> Result<(), Fail> {
    let mut image = GromImage::new(rt.alloc())?;
    assert!(rt; image.high() == 0 && image.written().is_empty());
    for &(at, byte, low, bytes) in WRITES {
        image.put(at, byte);
        assert!(rt; is_written_as(&image, low, bytes), "at {at}");
    }
    assert!(rt; distinguishes_written(&image));
    Ok(())
}
