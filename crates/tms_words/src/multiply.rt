//! Products and quotients of words without sign.
ghost use Rattle.std.specs.Prelude.{◌≡◌, is_some};
ghost use Rattle.tms_defs.specs.MultiplyDivide.{product_of, division_of, has_quotient};

/// The high and the low word of a product. TMS9900 data manual, "Multiply".
pub fn mul16(a: u16, b: u16) -> (u16, u16)
    ensures { result ≡ product_of a b }
{
    let product = u32::from(a) * u32::from(b);
    ((product >> 16) as u16, (product & 0xFFFF) as u16)
}

/// The quotient and the remainder of the number with the words `high` and `low`, and None exactly where the divisor
/// `by` is not above `high`. TMS9900 data manual, "Divide".
#[tactic(auto, using(tms_defs::proofs::DivideLaws::quotient_is_word))]
pub fn div16(high: u16, low: u16, by: u16) -> Option<(u16, u16)>
    ensures value { result ≡ division_of high low by }
    // there is a quotient, and it is a word
    ensures quotient { is_some result ≡ has_quotient high low by }
{
    if by <= high {
        return None;
    }
    let dividend = (u32::from(high) << 16) + u32::from(low);
    let by = u32::from(by);
    Some(((dividend / by) as u16, (dividend % by) as u16))
}
