//! Decks as records: lists of bytes.
ghost use Rattle.std.specs.Prelude.{◌≡◌, ◌++◌, ◌∷◌, OnOk, ◌<◌};
ghost use Rattle.sms_records.specs.Form.{IsReadable, text_form, text_at};
ghost use Rattle.sms_records.specs.Reading.{Gives};

use crate::numbers::write_byte;
use crate::record_err::RecordErr;
use crate::texts::{read_text, write_text};
use desk_common::{Items, Shared};
use sms_construct::DeckText;
use std::alloc::{AllocError, Global};

/// The byte of a variant, and a deck.
#[tactic(auto, using(crate::specs::Inner::FormLaws::text_readable, crate::specs::Inner::FormLaws::on_ok))]
pub fn write_deck_variant(tag: u8, deck: &DeckText, out: &mut Vec<u8>) -> Result<(), AllocError>
    ensures written { OnOk result (out.new.items ≡ out.old.items ++ tag ∷ text_form.write deck.now) }
    ensures readable { OnOk result (IsReadable text_form deck.now) }
{
    write_byte(tag, out)?;
    write_text(deck.get().as_slice(), out)
}

/// The deck at the front of the bytes.
pub fn read_deck(alloc: Global, bytes: &[u8]) -> Result<(DeckText, &[u8]), RecordErr>
    ensures { Gives (λ x. (x.0, x.1.now)) result (text_at bytes.now) }
{
    let (found, rest) = read_text(bytes)?;
    let items = Items::from_slice(alloc, found)?;
    Ok((Shared::new(alloc, items)?, rest))
}
