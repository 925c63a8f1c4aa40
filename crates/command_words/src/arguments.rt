//! The words that a program is called with.

use crate::words::Words;
use std::alloc::AllocError;
use std::env;
use std::env::Env;
use std::io::ErrorKind;

/// The words after the program's name; or the one word `?`, which is no command, if they cannot be had, as when one of
/// them is no UTF-8.
///
/// # Errors
/// `AllocError` means out of memory.
pub fn program_words<R: Env + AllocGlobal>(rt: &R) -> Result<Words, AllocError> {
    let mut words = Words::new(rt.alloc());
    match env::args(rt) {
        Ok(args) => {
            for arg in args.skip(1) {
                words.push(arg.as_bytes())?;
            }
        }
        Err(error) if error.kind() == ErrorKind::OutOfMemory => return Err(AllocError),
        Err(_) => words.push(b"?")?,
    }
    Ok(words)
}
