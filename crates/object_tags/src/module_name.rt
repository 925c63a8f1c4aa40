//! The names of modules.

ghost use Rattle.std.specs.Prelude.{◌≡◌, Some, None, IsTrue, if◌then◌else◌, length};
ghost use Rattle.object_defs.specs.Modules.{is_module_name, is_name_character, all_name_characters};

use std::marker::Model;

/// How many characters a module's name has.
const NAME_LENGTH: usize = 8;

/// A module's name: eight characters from >20 to >7E.
#[derive(Clone, Copy, PartialEq, Eq, PartialOrd, Ord, Hash, Debug)]
pub struct ModuleName {
    bytes: [u8; NAME_LENGTH],
}

impl Model for ModuleName {
    ghost use Rattle.std.specs.Prelude.{◌≡◌, ℕ, List, IsTrue, refl};
    ghost use Rattle.object_defs.specs.Modules.{is_module_name};

    ghost Value = { List ℕ };

    ghost view = { λ name. name.bytes };

    ghost invariant = { λ name. IsTrue (is_module_name name.bytes) };

    ghost inverse = { λ name. record { bytes = name } };

    ghost inverse_ok = { λ a h. refl };
}

impl ModuleName {
    /// The name with these bytes, or `None` where they are not eight characters from >20 to >7E.
    pub fn read(bytes: &[u8]) -> Option<ModuleName>
        ensures { result ≡ (if is_module_name bytes.now then Some bytes.now else None) }
    {
        if !is_module_name(bytes) {
            return None;
        }
        Some(ModuleName {
            bytes: first_eight(bytes),
        })
    }

    /// The eight bytes of the name.
    pub fn as_bytes(&self) -> &[u8]
        ensures value { result.now ≡ self.now }
        ensures name { IsTrue (is_module_name self.now) }
        ensures size { length result.now ≡ 8 }
    {
        &self.bytes
    }
}

/// Whether the bytes are eight characters from >20 to >7E.
fn is_module_name(bytes: &[u8]) -> bool
    ensures { result ≡ is_module_name bytes.now }
{
    bytes.len() == NAME_LENGTH && all_name_characters(bytes)
}

/// Whether each of the bytes is a character that a module's name may have.
pub(crate) fn all_name_characters(bytes: &[u8]) -> bool
    ensures { result ≡ all_name_characters bytes.now }
{
    bytes.iter().all(|&byte| is_name_character(byte))
}

fn is_name_character(byte: u8) -> bool
    ensures { result ≡ is_name_character byte }
{
    (0x20..=0x7E).contains(&byte)
}

/// Eight bytes as an array.
fn first_eight(bytes: &[u8]) -> [u8; NAME_LENGTH]
    requires { length bytes.now ≡ 8 }
    ensures { result ≡ bytes.now }
{
    let mut eight = [0; NAME_LENGTH];
    eight.copy_from_slice(bytes);
    eight
}
