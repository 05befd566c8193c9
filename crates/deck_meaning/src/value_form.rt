//! The forms of values in a deck.

/// The form that a key's value must have (docs/manual/deck.md, "Keys").
#[derive(Clone, Copy)]
pub enum ValueForm {
    /// An integer from the first to the second number.
    Integer(u32, u32),
    Text,
    /// True or false.
    Flag,
    ConstructName,
    SpaceText,
    Pool,
    GroupStatus,
    VolumeStatus,
    Device,
    /// As many cylinders as a volume may have.
    Cylinders,
    /// `"YES"` or `"NO"`.
    YesOrNo,
    /// `"OPT"` or `"NO"`.
    OptOrNo,
}
