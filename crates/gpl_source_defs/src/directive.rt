//! The directives of a GPL source.

/// A directive of a GPL source: `Grom` is the start of a GROM, `Aorg` an offset in it.
#[derive(Clone, Copy, Debug, PartialEq, Eq)]
pub enum Directive {
    Grom,
    Aorg,
    Equ,
    Data,
    Byte,
    Text,
    Bss,
    End,
}
