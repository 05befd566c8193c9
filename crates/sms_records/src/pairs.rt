//! Pairs as records: structs are read and written by the pairs of their fields.
ghost use Rattle.std.specs.Prelude.{◌≡◌, ◌++◌, ◌∷◌, OnOk};
ghost use Rattle.sms_records.specs.Form.{IsReadable};

use crate::numbers::write_byte;
use crate::record_err::RecordErr;
use crate::recorded::Recorded;
use std::alloc::{AllocError, Global};

impl<A: Recorded, B: Recorded> Recorded for (A, B) {
    ghost use Rattle.sms_records.specs.Form.{◌&◌};
    ghost use Rattle.sms_records.specs.Inner.FormLaws.{◌&-exact◌};

    ghost form = { A.form & B.form };

    ghost exact = { A.exact &-exact B.exact };

    #[tactic(auto, using(crate::specs::Inner::FormLaws::both_readable, crate::specs::Inner::FormLaws::on_ok))]
    fn write_to(&self, out: &mut Vec<u8>) -> Result<(), AllocError> {
        self.0.write_to(out)?;
        self.1.write_to(out)
    }

    #[tactic(auto, unfolding(crate::specs::Form::both_at))]
    fn read_from(alloc: Global, bytes: &[u8]) -> Result<(Self, &[u8]), RecordErr> {
        let (first, rest) = A::read_from(alloc, bytes)?;
        let (second, rest) = B::read_from(alloc, rest)?;
        Ok(((first, second), rest))
    }
}

/// The byte of a variant, and its field.
pub fn write_variant<P: Recorded>(tag: u8, payload: &P, out: &mut Vec<u8>) -> Result<(), AllocError>
    ensures written { OnOk result (out.new.items ≡ out.old.items ++ tag ∷ P.form.write payload.now) }
    ensures readable { OnOk result (IsReadable P.form payload.now) }
{
    write_byte(tag, out)?;
    payload.write_to(out)
}

/// The byte of a variant, and its two fields.
pub fn write_variant_of_two<A: Recorded, B: Recorded>(
    tag: u8,
    first: &A,
    second: &B,
    out: &mut Vec<u8>,
) -> Result<(), AllocError>
    ensures written { OnOk result
        (out.new.items ≡ out.old.items ++ tag ∷ (A.form.write first.now ++ B.form.write second.now)) }
    ensures readable { OnOk result (IsReadable A.form first.now × IsReadable B.form second.now) }
{
    write_byte(tag, out)?;
    first.write_to(out)?;
    second.write_to(out)
}
