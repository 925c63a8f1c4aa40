//! Compressed texts, worked out by the format's rules.

use crate::object_text::{gives, refuses, word};
use object_tags::{Piece, Spot, TagCause};
use std::test::Fail;

/// A word at the place that a module begins with.
const JUMP: &[Piece] = &[word!(Relocatable 0, Absolute 0x10FF)];

/// The words of a module with both kinds of each group.
const BOTH: &[Piece] = &[
    word!(Relocatable 0, Absolute 0x0201),
    word!(Relocatable 2, Relocatable 0x1234),
    word!(Absolute 0xA000, Absolute 0xA081),
    word!(Absolute 0xA002, Absolute 0x045B),
];

/// Texts of records, one a line here, with the number of their modules and the words of the last one.
const READ: &[(&[u8], usize, &[Piece])] = &[
    // two records, the second full
    (
        b"\x01\0\x02        A\0\0B\x10\xFF2\0\07\xFD\x02F                                                        \
          :                                                                               ",
        1,
        JUMP,
    ),
    // both kinds of each group; text after F; a last record of one byte
    (
        b"\x01\0\x10TWO MODSA\0\0B\x02\x01C\x1249\xA0\0B\xA0\x81B\x04[5\0\x02A     6?\xFFLONGER8\n\r7\xF4\xDDF?   \
          \x20                     \
          3\0\x02EXTERN4\0\0X     2\0\n7\xFCVF                                                       \
          :",
        1,
        BOTH,
    ),
    // a record of blanks
    (
        b"\x01\0\x02        A\0\0B\x10\xFF2\0\07\xFD\x02F                                                        \
          \t                                                                               \
          : ignored\n",
        1,
        JUMP,
    ),
    // a record that is filled to its end
    (
        b"\x01\0\x02        5\0\x01NAME1 5\0\x02NAME2 5\0\x03NAME3 5\0\x04NAME4 5\0\x05NAME5 5\0\x06NAME6 5\0\x07N\
          AME7 8\0\0B\x10\xFF\
          :",
        1,
        JUMP,
    ),
    // two modules; a last record of blanks
    (
        b"\x01\0\0        F                                                                    \
          :                                                                               \
          \x01\0\x02        A\0\0B\x10\xFF2\0\07\xFD\x02F                                                        \
          :                                                                               \
          \x20 ",
        2,
        JUMP,
    ),
];

/// Texts of records, and the record and cause of their first bad place.
const REFUSED: &[(&[u8], u32, TagCause)] = &[
    (
        b"\x01\0\x02        A\0\0B\x10\xFF2\0\07\xFD\x03F                                                        \
          :                                                                               ",
        1,
        TagCause::Checksum {
            found: 0xFD03,
            computed: 0xFD02,
        },
    ),
    (
        b"\x01\0\x02        A\0\0B\x10\xFF2\0",
        1,
        TagCause::ShortField,
    ),
    (b"\x01\0\x02        A\0\0B\x10\xFF2\0\0", 1, TagCause::NoEnd),
    (b"\x01", 1, TagCause::ShortField),
    (b"\x01\0", 1, TagCause::ShortField),
    (b"\x01\0\0       ", 1, TagCause::ShortField),
    (b"\x01\0\0\x7F", 1, TagCause::BadTag(1)),
    (b"\x01\0\0        A\0", 1, TagCause::ShortField),
    (b"\x01\0\0        2", 1, TagCause::ShortField),
    (b"\x01\0\0        7\0", 1, TagCause::ShortField),
    (b"\x01\0\0        8\0", 1, TagCause::ShortField),
    (b"\x01\0\0        4\0", 1, TagCause::ShortField),
    (b"\x01\0\0        6\0\0", 1, TagCause::ShortField),
    (b"\x01\0\0        3\0\0A  ", 1, TagCause::ShortField),
    (b"\x01\0\0        5\0\0A\tB", 1, TagCause::BadTag(b'5')),
    (b"\x01\0\0        5\0\0      ", 1, TagCause::BadTag(b'5')),
    (b"\x01\0\0        0\0\0        F", 1, TagCause::BadTag(b'0')),
    (b"\x01\0\0        \x01\0\0        ", 1, TagCause::BadTag(1)),
    (b"\x01\0\0        G\0\0", 1, TagCause::BadTag(b'G')),
    (b"\x01\0\0        1\0\02\0\0", 1, TagCause::BadTag(b'2')),
    (b"\x01\0\0        :", 1, TagCause::BadTag(b':')),
    (b"\x01\0\0        B\0\0\n", 1, TagCause::BadTag(b'\n')),
    (
        b"\x01\0\0        F                                                                    \
          :                                                                               \
          00000        F",
        3,
        TagCause::BadTag(b'0'),
    ),
    (
        b"\x01\0\0        F                                                                    \
          :                                                                               \
          :                                                                               ",
        3,
        TagCause::BadTag(b':'),
    ),
    (
        b"\x01\0\x02        A\0\0B\x10\xFF2\0\07\xFD\x02F                                                        \
          B",
        2,
        TagCause::ShortField,
    ),
    (
        b"\x01\0\x02        A\0\0B\x10\xFF2\0\07\xFD\x02F                                                        \
          B\0\0",
        2,
        TagCause::NoEnd,
    ),
    (
        b"\x01\0\x02        5\0\x01NAME1 5\0\x02NAME2 5\0\x03NAME3 5\0\x04NAME4 5\0\x05NAME5 5\0\x06NAME6 5\0\x07N\
          AME7 8\0\05\0\0\
          A     F",
        1,
        TagCause::ShortField,
    ),
    (
        b"\x01\0\x02        A\0\0B\x10\xFF2\0\07\xFD\x02F                                                        \
          \x20\t",
        1,
        TagCause::NoEnd,
    ),
];

#[test]
fn reads_compressed_modules(rt: HostRuntime) -> Result<(), Fail> {
    for &(text, count, words) in READ {
        assert!(rt; gives(rt.alloc(), text, count, words), "{}", text.len());
    }
    Ok(())
}

#[test]
fn refuses_damaged_records(rt: HostRuntime) -> Result<(), Fail> {
    for &(text, record, cause) in REFUSED {
        assert!(rt;
            refuses(rt.alloc(), text, record, cause),
            "record {record}, {}",
            text.len()
        );
    }
    Ok(())
}
