//! Values that are recorded.
ghost use Rattle.std.specs.Prelude.{◌≡◌, ◌++◌, [], ℕ, List, IfOk, OnOk, IsErrOf};
ghost use Rattle.sms_records.specs.Form.{Form, IsExact, IsReadable, whole};
ghost use Rattle.sms_records.specs.Reading.{Gives};

use crate::record_err::RecordErr;
use std::alloc::{AllocError, Global};

// The bytes for which there is room at once: the record of an ordinary request has fewer.
const ROOM: usize = 512;

/// A value that is written as bytes and read again (docs/manual/records.md, "The record form").
pub trait Recorded: Sized + Drop {
    /// How it is written, and read again.
    ghost form: { Form Self };

    /// Puts the value behind what is written.
    fn write_to(&self, out: &mut Vec<u8>) -> Result<(), AllocError>
        ensures written { OnOk result (out.new.items ≡ out.old.items ++ form.write self.now) }
        ensures readable { OnOk result (IsReadable form self.now) };

    /// The value at the front of the bytes, and the bytes behind it; `Bad` exactly where none stands there.
    /// Otherwise a refusal is want of memory.
    fn read_from(alloc: Global, bytes: &[u8]) -> Result<(Self, &[u8]), RecordErr>
        ensures { Gives (λ x. (x.0, x.1.now)) result (form.read bytes.now) };

    /// What is read is written so.
    ghost exact: { IsExact form };
}

/// The record of a value, or want of memory.
pub fn record_of<T: Recorded>(alloc: Global, value: &T) -> Result<Vec<u8>, AllocError>
    ensures written { IfOk result (λ bytes. bytes.items ≡ T.form.write value.now) }
    ensures readable { IfOk result (λ bytes. IsReadable T.form value.now) }
{
    let mut out = Vec::with_capacity(alloc, ROOM)?;
    value.write_to(&mut out)?;
    Ok(out)
}

// The value whose bytes these are, and nothing behind them.
#[tactic(auto, unfolding(crate::specs::Form::whole))]
fn whole<T: Recorded>(alloc: Global, bytes: &[u8]) -> Result<T, RecordErr>
    ensures { Gives (λ x. x) result (whole T.form bytes.now) }
{
    let (value, rest) = T::read_from(alloc, bytes)?;
    if !rest.is_empty() {
        return Err(RecordErr::Bad);
    }
    Ok(value)
}

/// The value whose record these bytes are. `Bad` exactly where they are the record of none; otherwise a refusal
/// is want of memory.
pub fn read_whole<T: Recorded>(alloc: Global, bytes: &[u8]) -> Result<T, RecordErr>
    ensures read { Gives (λ x. x) result (whole T.form bytes.now) }
    ensures found { IfOk result (λ value. bytes.now ≡ T.form.write value) }
    ensures bad { IsErrOf result RecordErr.Bad → (value : T) → IsReadable T.form value →
        bytes.now ≡ T.form.write value → ⊥ }
{
    whole(alloc, bytes)
}

/// No record of a value is the front of another's: where more stands behind it, the values are equal and there is
/// no more.
pub fn no_front<T: Recorded>()
    ensures { (value other : T) (more : List ℕ) → IsReadable T.form value → IsReadable T.form other →
        T.form.write other ≡ T.form.write value ++ more → (other ≡ value) × (more ≡ []) }
{}
