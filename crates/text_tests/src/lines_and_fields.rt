//! Texts and lines with what they hold, by hand.

ghost use Rattle.std.specs.Prelude.{◌<◌, ◌^◌, length};

use asm_text::{Name, TextError, fields, is_word, lines};
use std::test::Fail;

/// Texts with the bounds of their lines.
const TEXTS: &[(&[u8], &[(usize, usize)])] = &[
    (b"", &[]),
    (b"A", &[(0, 1)]),
    (b"\n", &[(0, 0)]),
    (b"\r\n", &[(0, 0)]),
    (b"A\r\n", &[(0, 1)]),
    (b"A\r", &[(0, 2)]),
    (b"A\nB", &[(0, 1), (2, 3)]),
    (b"A\r\r\nB\r", &[(0, 2), (4, 6)]),
    (b"\n\nA\r\n\r\n", &[(0, 0), (1, 1), (2, 3), (5, 5)]),
];

/// Whether a text has lines with these bounds, which count from 1.
fn lines_as(text: &[u8], bounds: &[(usize, usize)]) -> bool {
    if text.len() > 100 {
        return false;
    }
    let mut rest = bounds;
    for line in lines(text) {
        match rest.split_first() {
            Some((&(start, end), others)) => {
                if (line.span.start, line.span.end) != (start, end)
                    || line.number as usize + rest.len() != 1 + bounds.len()
                {
                    return false;
                }
                rest = others;
            }
            None => return false,
        }
    }
    rest.is_empty()
}

/// Lines with their label, operation and operand field.
const FIELDS: &[(&[u8], &[u8], &[u8], &[u8])] = &[
    (b" \t ", b"", b"", b""),
    (b"* RTN", b"", b"", b""),
    (b" * RTN", b"", b"*", b"RTN"),
    (b"loop1 rtn", b"LOOP1", b"rtn", b""),
    (b"A\tMOV\tR1,R2\tcopy it", b"A", b"MOV", b"R1,R2"),
    (b"ABCDEF DATA 1 * 2", b"ABCDEF", b"DATA", b"1"),
    (b" TEXT 'A B',C comment", b"", b"TEXT", b"'A B',C"),
    (b" TEXT 'IT''S A' X", b"", b"TEXT", b"'IT''S A'"),
    (b" TEXT 'AN OPEN  ONE ", b"", b"TEXT", b"'AN OPEN  ONE "),
    (&[b' '; 256], b"", b"", b""),
];

/// Whether a line has these fields; one that is empty here is one that the line does not have.
fn fields_as(line: &[u8], label: &[u8], operation: &[u8], operands: &[u8]) -> bool {
    match fields(line) {
        Ok(found) => {
            found.label == Name::read(label)
                && match found.operation {
                    Some(span) => line.get(span.start..span.end) == Some(operation),
                    None => operation.is_empty(),
                }
                && line.get(found.operands.start..found.operands.end) == Some(operands)
        }
        Err(_) => false,
    }
}

/// Lines whose label field is no name.
const BAD_LABELS: &[&[u8]] = &[
    b"ABCDEFG RTN",
    b"1A RTN",
    b"A.B RTN",
    b"'A B' RTN",
    b"\r",
    &[b'A'; 256],
];

fn refused_as(line: &[u8], cause: TextError) -> bool {
    fields(line) == Err(cause)
}

#[test]
fn cuts_a_text_into_lines_and_a_line_into_fields(rt: HostRuntime) -> Result<(), Fail> {
    for &(text, bounds) in TEXTS {
        assert!(rt; lines_as(text, bounds));
    }
    for &(line, label, operation, operands) in FIELDS {
        assert!(rt; fields_as(line, label, operation, operands));
    }
    for &line in BAD_LABELS {
        assert!(rt; refused_as(line, TextError::BadLabel));
    }
    assert!(rt; refused_as(&[b' '; 257], TextError::LineTooLong));
    Ok(())
}

/// Words, and texts with other letters.
fn compares_words() -> bool {
    is_word(b"Rtn", b"RTN") && !is_word(b"RTNC", b"RTN") && !is_word(b"RTC", b"RTN")
}

/// Whether a text is read as a name that shows the same text.
fn is_name(text: &[u8]) -> bool {
    match Name::read(text) {
        Some(name) => name.as_bytes() == text,
        None => false,
    }
}

/// Texts that are names and texts that are none.
fn reads_names() -> bool {
    is_name(b"!~a.$1")
        && Name::read(b"").is_none()
        && Name::read(b"ABCDEFG").is_none()
        && Name::read(b"A B").is_none()
        && Name::read(b"A") < Name::read(b"AB")
        && Name::read(b"AB") < Name::read(b"B")
}

#[test]
fn keeps_names_and_says_causes(rt: HostRuntime) -> Result<(), Fail> {
    assert!(rt; compares_words() && reads_names());
    let cause = format!(in rt.alloc(); "{}, {}", TextError::LineTooLong, TextError::BadLabel)?;
    assert!(rt; cause.as_str() == "line too long, bad label");
    Ok(())
}
