//! What is watched, and what is found.

use crate::programs::Program;
use gpl_watch::{Found, Item, Space};

/// What a row shows, a program, what is watched of it, the most steps, what is found by one run after the other, and
/// the address after the last.
pub(crate) const ROWS: &[(&str, Program, &[Item], u32, &[Found], u16)] = &[
    (
        "the screen",
        Program::Show,
        &[Item::Range {
            space: Space::Vdp,
            at: 0x0000,
            len: 768,
        }],
        100,
        &[Found::Hit {
            step: 2,
            from: 0x6024,
            item: 1,
            change: Some((0x0000, 0x20)),
        }],
        0x6026,
    ),
    (
        "a cell that changes late",
        Program::Show,
        &[Item::Range {
            space: Space::Cpu,
            at: 0x8302,
            len: 1,
        }],
        100,
        &[Found::Hit {
            step: 24,
            from: 0x604C,
            item: 1,
            change: Some((0x8302, 0x7F)),
        }],
        0x604F,
    ),
    (
        "an address before it",
        Program::Show,
        &[
            Item::Range {
                space: Space::Cpu,
                at: 0x8302,
                len: 1,
            },
            Item::Pc(0x6035),
        ],
        100,
        &[Found::Hit {
            step: 5,
            from: 0x602B,
            item: 2,
            change: None,
        }],
        0x6035,
    ),
    (
        "cells that do not change",
        Program::Show,
        &[Item::Range {
            space: Space::Cpu,
            at: 0x8310,
            len: 4,
        }],
        100,
        &[Found::None],
        0x6034,
    ),
    (
        "too few steps",
        Program::Show,
        &[Item::Range {
            space: Space::Cpu,
            at: 0x8302,
            len: 1,
        }],
        3,
        &[Found::None],
        0x6028,
    ),
    (
        "no step",
        Program::Show,
        &[Item::Range {
            space: Space::Vdp,
            at: 0x0000,
            len: 16384,
        }],
        0,
        &[Found::None],
        0x601E,
    ),
    (
        "one step too few, and then the step",
        Program::Show,
        &[Item::Range {
            space: Space::Vdp,
            at: 0x0000,
            len: 16384,
        }],
        1,
        &[
            Found::None,
            Found::Hit {
                step: 1,
                from: 0x6024,
                item: 1,
                change: Some((0x0000, 0x20)),
            },
        ],
        0x6026,
    ),
    (
        "the last step that is allowed",
        Program::Show,
        &[Item::Range {
            space: Space::Vdp,
            at: 0x0000,
            len: 16384,
        }],
        2,
        &[Found::Hit {
            step: 2,
            from: 0x6024,
            item: 1,
            change: Some((0x0000, 0x20)),
        }],
        0x6026,
    ),
    (
        "all cells: the first that changes, and then the lowest of three",
        Program::Show,
        &[Item::Range {
            space: Space::Cpu,
            at: 0x8300,
            len: 194,
        }],
        100,
        &[
            Found::Hit {
                step: 4,
                from: 0x6028,
                item: 1,
                change: Some((0x8300, 0x03)),
            },
            Found::Hit {
                step: 1,
                from: 0x602B,
                item: 1,
                change: Some((0x8373, 0x80)),
            },
        ],
        0x6035,
    ),
    (
        "the last byte of the screen",
        Program::Show,
        &[Item::Range {
            space: Space::Vdp,
            at: 0x02FF,
            len: 2,
        }],
        100,
        &[
            Found::Hit {
                step: 2,
                from: 0x6024,
                item: 1,
                change: Some((0x02FF, 0x20)),
            },
            Found::None,
        ],
        0x6034,
    ),
    (
        "the byte behind the screen",
        Program::Show,
        &[Item::Range {
            space: Space::Vdp,
            at: 0x0300,
            len: 15616,
        }],
        100,
        &[Found::None],
        0x6034,
    ),
    (
        "the last cell",
        Program::Ends,
        &[Item::Range {
            space: Space::Cpu,
            at: 0x83C1,
            len: 1,
        }],
        100,
        &[
            Found::Hit {
                step: 1,
                from: 0x6000,
                item: 1,
                change: Some((0x83C1, 0x01)),
            },
            Found::None,
        ],
        0x6009,
    ),
    (
        "all cells up to the last",
        Program::Ends,
        &[Item::Range {
            space: Space::Cpu,
            at: 0x8300,
            len: 194,
        }],
        100,
        &[
            Found::Hit {
                step: 1,
                from: 0x6000,
                item: 1,
                change: Some((0x83C1, 0x01)),
            },
            Found::None,
        ],
        0x6009,
    ),
    (
        "the last byte of video memory",
        Program::Ends,
        &[Item::Range {
            space: Space::Vdp,
            at: 0x3FFF,
            len: 1,
        }],
        100,
        &[
            Found::Hit {
                step: 2,
                from: 0x6004,
                item: 1,
                change: Some((0x3FFF, 0x02)),
            },
            Found::None,
        ],
        0x6009,
    ),
    (
        "all video memory up to its last byte",
        Program::Ends,
        &[Item::Range {
            space: Space::Vdp,
            at: 0x0000,
            len: 16384,
        }],
        100,
        &[
            Found::Hit {
                step: 2,
                from: 0x6004,
                item: 1,
                change: Some((0x3FFF, 0x02)),
            },
            Found::None,
        ],
        0x6009,
    ),
    (
        "the address behind the first step",
        Program::Show,
        &[Item::Pc(0x6024)],
        100,
        &[Found::Hit {
            step: 1,
            from: 0x601E,
            item: 1,
            change: None,
        }],
        0x6024,
    ),
    (
        "the address of the first step, and the ends",
        Program::Show,
        &[Item::Pc(0x601E), Item::Pc(0x0000), Item::Pc(0xFFFF)],
        100,
        &[Found::None],
        0x6034,
    ),
    (
        "the address of the step that ends the program",
        Program::Show,
        &[Item::Pc(0x6034)],
        100,
        &[
            Found::Hit {
                step: 28,
                from: 0x6032,
                item: 1,
                change: None,
            },
            Found::None,
        ],
        0x6034,
    ),
    (
        "eight items",
        Program::Show,
        &[
            Item::Range {
                space: Space::Cpu,
                at: 0x8302,
                len: 1,
            },
            Item::Range {
                space: Space::Cpu,
                at: 0x8303,
                len: 1,
            },
            Item::Range {
                space: Space::Cpu,
                at: 0x83C1,
                len: 1,
            },
            Item::Range {
                space: Space::Vdp,
                at: 0x3FFF,
                len: 1,
            },
            Item::Range {
                space: Space::Vdp,
                at: 0x0300,
                len: 1,
            },
            Item::Pc(0x0000),
            Item::Pc(0xFFFF),
            Item::Pc(0x6035),
        ],
        100,
        &[
            Found::Hit {
                step: 5,
                from: 0x602B,
                item: 8,
                change: None,
            },
            Found::Hit {
                step: 8,
                from: 0x602B,
                item: 8,
                change: None,
            },
        ],
        0x6035,
    ),
    (
        "two that hold at one step",
        Program::Show,
        &[
            Item::Range {
                space: Space::Vdp,
                at: 0x0300,
                len: 1,
            },
            Item::Range {
                space: Space::Vdp,
                at: 0x0001,
                len: 4,
            },
            Item::Range {
                space: Space::Vdp,
                at: 0x0000,
                len: 768,
            },
        ],
        100,
        &[Found::Hit {
            step: 2,
            from: 0x6024,
            item: 2,
            change: Some((0x0001, 0x20)),
        }],
        0x6026,
    ),
    (
        "an item that holds again",
        Program::Show,
        &[Item::Range {
            space: Space::Cpu,
            at: 0x8300,
            len: 1,
        }],
        100,
        &[
            Found::Hit {
                step: 4,
                from: 0x6028,
                item: 1,
                change: Some((0x8300, 0x03)),
            },
            Found::Hit {
                step: 6,
                from: 0x602E,
                item: 1,
                change: Some((0x8300, 0x02)),
            },
            Found::Hit {
                step: 8,
                from: 0x602E,
                item: 1,
                change: Some((0x8300, 0x01)),
            },
            Found::Hit {
                step: 8,
                from: 0x602E,
                item: 1,
                change: Some((0x8300, 0x00)),
            },
            Found::None,
        ],
        0x6034,
    ),
    (
        "a change that is taken back",
        Program::Show,
        &[Item::Range {
            space: Space::Cpu,
            at: 0x8373,
            len: 1,
        }],
        100,
        &[
            Found::Hit {
                step: 5,
                from: 0x602B,
                item: 1,
                change: Some((0x8373, 0x80)),
            },
            Found::Hit {
                step: 4,
                from: 0x6046,
                item: 1,
                change: Some((0x8373, 0x7E)),
            },
        ],
        0x602E,
    ),
];
