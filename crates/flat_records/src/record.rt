//! Records in either form.
ghost use Rattle.std.specs.Prelude.{◌≡◌, ◌++◌, ◌∷◌, [], OnOk, map};
ghost use Rattle.flat_records.specs.Records.{header_in, named_of, record_in};
ghost use Rattle.flat_records.specs.Records.{object_text};

use crate::csv_form::push_csv;
use crate::csv_record::record_text;
use crate::field::Field;
use crate::fields::Fields;
use crate::form::RecordForm;
use crate::json_form::push_object;
use std::alloc::{AllocError, Global};

/// Puts what stands before records with fields of these names behind a text: in comma-separated values a record of the
/// names, in JSON nothing (docs/manual/tool.md, "For other tools").
pub fn push_header(
    alloc: Global,
    text: &mut Vec<u8>,
    form: RecordForm,
    names: &[&[u8]],
) -> Result<(), AllocError>
    ensures { OnOk result (text.new.items ≡ text.old.items ++ header_in form (map (λ name. name.now) names.now)) }
{
    match form {
        RecordForm::Csv => {
            let header = record_text(alloc, names)?;
            text.extend_from_slice(&header)
        }
        RecordForm::Json => Ok(()),
    }
}

/// Puts a record behind a text, or only a front of it where memory is wanting.
pub fn push_record(
    alloc: Global,
    text: &mut Vec<u8>,
    form: RecordForm,
    fields: &Fields<'_>,
) -> Result<(), AllocError>
    ensures { OnOk result (text.new.items ≡ text.old.items ++ record_in form fields.now) }
{
    match form {
        RecordForm::Csv => push_csv(alloc, text, fields.list()),
        RecordForm::Json => push_line(text, fields.list()),
    }
}

// Puts a record as an object of JSON on a line of its own.
fn push_line(text: &mut Vec<u8>, fields: &[Field<'_>]) -> Result<(), AllocError>
    ensures { OnOk result (text.new.items ≡ text.old.items ++ (object_text (map named_of fields.now) ++ 10 ∷ [])) }
{
    push_object(text, fields)?;
    text.push(b'\n')?;
    Ok(())
}
