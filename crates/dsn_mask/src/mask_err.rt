//! Why a text is no mask.
use thiserror::Error;

/// The first fault of a text, from the left. Places count from 0 (docs/manual/acs-language.md, "Masks").
#[derive(Clone, Copy, Debug, PartialEq, Eq, Error)]
pub enum MaskErr {
    /// The text has no byte.
    #[error("the mask is empty")]
    Empty,
    /// The text has more than 64 bytes.
    #[error("the mask has more than 64 bytes")]
    TooLong,
    /// The star at this place is the third of a run.
    #[error("the asterisk at {0} is the third of a run")]
    ThreeStars(u32),
    /// The two stars from this place on are no whole qualifier; a simple mask never has two.
    #[error("the two asterisks at {0} are no qualifier")]
    StarsNotAlone(u32),
    /// The byte at this place may not stand in a mask.
    #[error("the byte at {0} may not stand in a mask")]
    BadByte(u32),
    /// The full stop at this place opens the mask, follows another or ends the mask.
    #[error("the full stop at {0} closes or opens an empty qualifier")]
    EmptyPiece(u32),
}
