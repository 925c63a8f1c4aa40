//! The results of the processor's arithmetic, with the status bits that they set.

/// The status bits that arithmetic sets. TMS9900 data manual, "Status register".
#[derive(Clone, Copy, Debug, PartialEq, Eq)]
pub struct Flags {
    /// L>: logical greater than.
    pub lgt: bool,
    /// A>: arithmetic greater than.
    pub agt: bool,
    /// EQ: equal.
    pub eq: bool,
    /// C: carry.
    pub c: bool,
    /// OV: overflow.
    pub ov: bool,
}

/// A word and the status bits that come with it.
#[derive(Clone, Copy, Debug, PartialEq, Eq)]
pub struct Out16 {
    /// The word.
    pub value: u16,
    /// Its status bits.
    pub flags: Flags,
}

/// A byte and the status bits that come with it.
#[derive(Clone, Copy, Debug, PartialEq, Eq)]
pub struct Out8 {
    /// The byte.
    pub value: u8,
    /// Its status bits.
    pub flags: Flags,
}
