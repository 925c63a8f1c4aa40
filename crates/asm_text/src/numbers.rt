//! The numbers of source text.

ghost use Rattle.std.specs.Prelude.{◌≡◌, ◌≤◌, ◌<◌, if◌then◌else◌, Some, None, IfSome};
ghost use Rattle.source_defs.specs.Numbers as spec;

/// The number of decimal digits, where it is not above a limit. It may have zeros in front.
pub fn decimal_up_to(digits: &[u8], limit: u32) -> Option<u32>
    requires { limit ≤ 10000000 }
    ensures value { result ≡ spec.decimal_up_to limit digits.now }
    ensures within { IfSome result (λ value. value ≤ limit) }
{
    if digits.is_empty() {
        return None;
    }
    let mut value = 0;
    for &byte in digits {
        if !byte.is_ascii_digit() {
            return None;
        }
        value = value * 10 + u32::from(byte - b'0');
        if value > limit {
            return None;
        }
    }
    Some(value)
}

/// The number of one to four hexadecimal digits, each of either case.
pub fn hexadecimal_number(digits: &[u8]) -> Option<u16>
    ensures { result ≡ spec.hexadecimal_number digits.now }
{
    if digits.is_empty() || digits.len() > 4 {
        return None;
    }
    let mut value = 0u16;
    for &byte in digits {
        value = value * 16 + u16::from(hexadecimal_digit(byte)?);
    }
    Some(value)
}

pub(crate) fn is_hexadecimal_digit(byte: u8) -> bool
    ensures { result ≡ spec.is_hexadecimal_digit byte }
{
    byte.is_ascii_hexdigit()
}

/// What a hexadecimal digit of either case stands for.
fn hexadecimal_digit(byte: u8) -> Option<u8>
    ensures value { result ≡ (if spec.is_hexadecimal_digit byte then Some (spec.digit_value byte) else None) }
    ensures below { IfSome result (λ value. value < 16) }
{
    match byte {
        b'0'..=b'9' => Some(byte - b'0'),
        b'A'..=b'F' => Some(byte - b'A' + 10),
        b'a'..=b'f' => Some(byte - b'a' + 10),
        _ => None,
    }
}
