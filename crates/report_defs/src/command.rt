//! The commands of `ti_bench`.

/// A command, as the words of the command line say it.
#[derive(Clone, Copy, Debug, PartialEq, Eq)]
pub enum Command {
    /// `asm`: assembles an assembler source to the object text of its module.
    Asm,
    /// `gasm`: assembles a GPL source to the bytes of its image.
    Gasm,
    /// `dis ADDR`: lists raw bytes, which begin at an address, as assembler source.
    Dis {
        /// The address of the first byte, which is even.
        at: u16,
    },
    /// `gdis ADDR`: lists bytes of GROM, which begin at an address, as a GPL source.
    Gdis {
        /// The address of the first byte.
        at: u16,
    },
    /// `link`: places and links the modules of an object text, and lists the memory.
    Link,
    /// `exec N`: links the modules of an object text and executes up to N instructions from the entry.
    Exec {
        /// The most instructions, up to 10,000,000.
        limit: u32,
    },
    /// `interp`: builds the interpreter from its source, and lists its memory.
    Interp,
    /// `run N`: assembles a GPL source, and the interpreter runs up to N of its steps from the entry.
    Run {
        /// The most steps, up to 100,000.
        limit: u32,
    },
    /// `trace N`: as `run N`, and shows each step by a line.
    Trace {
        /// The most steps, up to 100,000.
        limit: u32,
    },
    /// `demo K`: makes a GPL program from a number, and the interpreter runs it.
    Demo {
        /// The number, from 1 to 500.
        number: u32,
    },
}

/// A command by its name alone.
#[derive(Clone, Copy, Debug, PartialEq, Eq)]
pub enum CommandName {
    Asm,
    Link,
    Dis,
    Exec,
    Gasm,
    Gdis,
    Interp,
    Run,
    Trace,
    Demo,
    /// Only the program with files has it.
    Watch,
}

/// The commands of `ti_bench`, in the order of its usage line: the word that names each, and what the usage line shows
/// after it. `link` takes names of files only in the program with files.
pub const COMMANDS: [(&[u8], &[u8], CommandName); 11] = [
    (b"asm", b"", CommandName::Asm),
    (b"link", b" [NAME ...]", CommandName::Link),
    (b"dis", b" ADDR", CommandName::Dis),
    (b"exec", b" N", CommandName::Exec),
    (b"gasm", b"", CommandName::Gasm),
    (b"gdis", b" ADDR", CommandName::Gdis),
    (b"interp", b"", CommandName::Interp),
    (b"run", b" N", CommandName::Run),
    (b"trace", b" N", CommandName::Trace),
    (b"demo", b" K", CommandName::Demo),
    (b"watch", b" N ITEM ...", CommandName::Watch),
];
