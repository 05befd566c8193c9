//! What stands in a command line behind the request number.
ghost use Rattle.std.specs.Prelude.{◌≡◌};

use std::marker::Model;

/// The part of a command line behind the request number, as bytes; contracts see their list.
#[derive(Drop)]
pub struct LineText {
    bytes: Vec<u8>,
}

impl Model for LineText {
    ghost use Rattle.std.specs.Prelude.{List, ℕ};

    ghost Value = { List ℕ };

    ghost view = { λ line. line.bytes.items };
}

impl LineText {
    /// These bytes.
    pub fn from_vec(bytes: Vec<u8>) -> LineText
        ensures { result ≡ bytes.items }
    {
        LineText { bytes }
    }

    /// The bytes, behind which more can be put.
    pub fn into_vec(self) -> Vec<u8>
        ensures { result.items ≡ self }
    {
        self.bytes
    }
}
