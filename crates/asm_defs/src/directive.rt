//! The directives of the assembler.

/// A directive (Editor/Assembler manual, "Assembler Directives"). `Quiet` is each of page eject, list source and no source
/// list.
#[derive(Clone, Copy, Debug, PartialEq, Eq)]
pub enum Directive {
    Aorg,
    Rorg,
    Dorg,
    Bss,
    Bes,
    Even,
    Equ,
    Data,
    Byte,
    Text,
    Def,
    Ref,
    Idt,
    Titl,
    Quiet,
    End,
}
