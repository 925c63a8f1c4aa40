//! Modules and texts, worked out by the format's rules.

ghost use Rattle.std.specs.Prelude.{IsTrue};
ghost use Rattle.std.specs.List.{AllByRecursion};
ghost use Rattle.object_defs.specs.Modules.{HasText, IsAtEvenPlace};
ghost use Rattle.object_tags.specs.Seen.{model_of_module};

use object_tags::{Module, Piece, Spot, TagCause, TagError, read_modules, write_module};
use std::alloc::{AllocError, Global};
use std::test::Fail;

/// A module of four words.
const FOUR_WORDS: &[u8] =
    b"00008        A0000B0201B1234BA081B045B7F886F                                0001\n\
      :                                                                           0002\n";

/// The same in records of 80 characters.
const FOUR_WORDS_IN_RECORDS: &[u8] =
    b"00008        A0000B0201B1234BA081B045B7F886F                                0001\
      :                                                                           0002";

/// A module with both kinds of each group.
const BOTH_KINDS: &[u8] =
    b"00010TWO MODSA0000B0201C12349A000BA081B045B50002A     63FFFLONGER7F15BF     0001\n\
      30002EXTERN40000X     2000A7FA0FF                                           0002\n\
      :                                                                           0003\n";

/// A module whose eleventh word does not fit in the first line.
const ELEVEN_WORDS: &[u8] =
    b"00016        A0000B0000B0001B0002B0003B0004B0005B0006B0007B0008B00097F290F  0001\n\
      A0014B000A7FDB0F                                                            0002\n\
      :                                                                           0003\n";

/// A word at a place.
macro_rules! word {
    ($at:ident $place:literal, $kind:ident $number:literal) => {
        Piece {
            at: Spot::$at($place),
            word: Spot::$kind($number),
        }
    };
}

pub(crate) use word;

/// The words of the module of four.
const FOUR: &[Piece] = &[
    word!(Relocatable 0, Absolute 0x0201),
    word!(Relocatable 2, Absolute 0x1234),
    word!(Relocatable 4, Absolute 0xA081),
    word!(Relocatable 6, Absolute 0x045B),
];

/// The words of the module with both kinds of each group.
const BOTH: &[Piece] = &[
    word!(Relocatable 0, Absolute 0x0201),
    word!(Relocatable 2, Relocatable 0x1234),
    word!(Absolute 0xA000, Absolute 0xA081),
    word!(Absolute 0xA002, Absolute 0x045B),
];

/// The eleven words.
const ELEVEN: &[Piece] = &[
    word!(Relocatable 0, Absolute 0),
    word!(Relocatable 2, Absolute 1),
    word!(Relocatable 4, Absolute 2),
    word!(Relocatable 6, Absolute 3),
    word!(Relocatable 8, Absolute 4),
    word!(Relocatable 10, Absolute 5),
    word!(Relocatable 12, Absolute 6),
    word!(Relocatable 14, Absolute 7),
    word!(Relocatable 16, Absolute 8),
    word!(Relocatable 18, Absolute 9),
    word!(Relocatable 20, Absolute 10),
];

/// The last place, and the place after it.
const WRAPPED: &[Piece] = &[
    word!(Absolute 0xFFFE, Relocatable 0x00AF),
    word!(Absolute 0, Absolute 0x7EF5),
];

/// The word of a second module, which begins at relocatable 0 again.
const SECOND: &[Piece] = &[word!(Relocatable 0, Absolute 2)];

/// Texts, with the number of their modules and the words of the last one.
const READ: &[(&[u8], usize, &[Piece])] = &[
    (FOUR_WORDS, 1, FOUR),
    (FOUR_WORDS_IN_RECORDS, 1, FOUR),
    (
        b"00008        A0000B0201B1234BA081B045B81234F\n:\n",
        1,
        FOUR,
    ),
    (
        b"00008        B0201B1234F\r\n \t\n\nBa081B045bF ignored\n: ignored",
        1,
        FOUR,
    ),
    (BOTH_KINDS, 1, BOTH),
    (ELEVEN_WORDS, 1, ELEVEN),
    (b"00000A~ B    9FFFFC00afB7eF5\n:", 1, WRAPPED),
    (
        b"00000        9FFFEB00017FB86F\n:\n00000        50000A\t    B0002\n:",
        2,
        SECOND,
    ),
    (b"", 0, &[]),
];

/// Texts of one module, as they are written.
const WRITTEN: &[&[u8]] = &[FOUR_WORDS, BOTH_KINDS, ELEVEN_WORDS];

/// Texts, and the line and cause of their first bad place.
const REFUSED: &[(&[u8], u32, TagCause)] = &[
    (
        b"00008        A0000B0201B1234BA082B045B7F886F\n:",
        1,
        TagCause::Checksum {
            found: 0xF886,
            computed: 0xF885,
        },
    ),
    (b"00008        A00", 1, TagCause::ShortField),
    (b"00000        F", 1, TagCause::NoEnd),
    (b"00000        F\n\n9000\n:", 3, TagCause::ShortField),
    (b"00000        F\n8FFFF\n \n", 2, TagCause::NoEnd),
    (b"B0001F\n:", 1, TagCause::BadTag(b'B')),
    (b"\n:", 2, TagCause::BadTag(b':')),
    (b"00000        F\n:\n:", 3, TagCause::BadTag(b':')),
    (b"00000        :", 1, TagCause::BadTag(b':')),
    (b"00000        00000        F\n:", 1, TagCause::BadTag(b'0')),
    (b"00000        1000020000F\n:", 1, TagCause::BadTag(b'2')),
    (b"00000        G0000F\n:", 1, TagCause::BadTag(b'G')),
    (b"00000        B0000 F\n:", 1, TagCause::BadTag(b' ')),
    (b"00000        B0000\r", 1, TagCause::BadTag(b'\r')),
    (b"00000        \x010000F\n:", 1, TagCause::BadTag(1)),
    (
        b"00000        F\n:\n\x01\0\0        F\n:",
        3,
        TagCause::BadTag(1),
    ),
    (b"00000       \tF\n:", 1, TagCause::BadTag(b'0')),
    (b"00000\x7F", 1, TagCause::BadTag(b'0')),
    (b"00000       ", 1, TagCause::ShortField),
    (b"0000g       ", 1, TagCause::BadDigit),
    (b"00000        AX000F\n:", 1, TagCause::BadDigit),
    (b"00000        A0x", 1, TagCause::BadDigit),
    (b"00000        50000A\tB   F\n:", 1, TagCause::BadTag(b'5')),
    (b"00000        50000      F\n:", 1, TagCause::BadTag(b'5')),
    (b"00000        30000A B", 1, TagCause::BadTag(b'3')),
    (b"00000        40000A  ", 1, TagCause::ShortField),
    (b"00000        60000", 1, TagCause::ShortField),
    (
        b"00000        7FDD8F",
        1,
        TagCause::Checksum {
            found: 0xFDD8,
            computed: 0xFDD9,
        },
    ),
];

/// Whether a text has a number of modules, of which the last has these words.
pub(crate) fn gives(alloc: Global, text: &[u8], count: usize, words: &[Piece]) -> bool {
    if text.len() > 1000 {
        return false;
    }
    match read_modules(alloc, text) {
        Ok(modules) => modules.len() == count && ends_with(modules.as_slice(), words),
        Err(_) => false,
    }
}

fn ends_with(modules: &[Module], words: &[Piece]) -> bool {
    match modules {
        [.., module] => module.pieces.as_slice() == words,
        [] => words.is_empty(),
    }
}

#[test]
fn reads_modules(rt: HostRuntime) -> Result<(), Fail> {
    for &(text, count, words) in READ {
        assert!(rt; gives(rt.alloc(), text, count, words), "{}", text.len());
    }
    Ok(())
}

/// Whether a text is refused at a line for a cause.
pub(crate) fn refuses(alloc: Global, text: &[u8], line: u32, cause: TagCause) -> bool {
    if text.len() > 2000 {
        return false;
    }
    match read_modules(alloc, text) {
        Ok(_) => false,
        Err(error) => error == TagError::At { line, cause },
    }
}

/// A text of 65 modules.
fn too_many_modules(alloc: Global) -> Result<Vec<u8>, AllocError> {
    let mut text = Vec::new(alloc);
    for _ in 0..65 {
        text.extend_from_slice(b"00000        F\n:\n")?;
    }
    Ok(text)
}

#[test]
fn refuses_damaged_lines(rt: HostRuntime) -> Result<(), Fail> {
    for &(text, line, cause) in REFUSED {
        assert!(rt;
            refuses(rt.alloc(), text, line, cause),
            "line {line}, {}",
            text.len()
        );
    }
    let text = too_many_modules(rt.alloc())?;
    assert!(rt; refuses(rt.alloc(), text.as_slice(), 129, TagCause::TooMany));
    Ok(())
}

/// Whether a text has one module, and that is written as this text.
fn is_written(alloc: Global, text: &[u8]) -> bool {
    if text.len() > 1000 {
        return false;
    }
    match read_modules(alloc, text) {
        Ok(modules) => match modules.as_slice() {
            [module] => has_text(module) && writes(alloc, module, text),
            _ => false,
        },
        Err(_) => false,
    }
}

fn writes(alloc: Global, module: &Module, text: &[u8]) -> bool
    requires { HasText (model_of_module «module».now) }
{
    match write_module(alloc, module) {
        Ok(written) => written.as_slice() == text,
        Err(_) => false,
    }
}

/// Whether a module passes no limit, and its words are at even places.
fn has_text(module: &Module) -> bool
    ensures { IsTrue result → HasText (model_of_module «module».now) }
{
    module.defs.as_slice().len() <= 256
        && module.refs.as_slice().len() <= 256
        && module.pieces.as_slice().len() <= 32_768
        && are_at_even_places(module.pieces.as_slice())
}

fn are_at_even_places(words: &[Piece]) -> bool
    ensures { IsTrue result → AllByRecursion IsAtEvenPlace words.now }
{
    for word in words {
        let (Spot::Absolute(number) | Spot::Relocatable(number)) = word.at;
        if number % 2 != 0 {
            return false;
        }
    }
    true
}

#[test]
fn writes_modules(rt: HostRuntime) -> Result<(), Fail> {
    for &text in WRITTEN {
        assert!(rt; is_written(rt.alloc(), text), "{}", text.len());
    }
    Ok(())
}
