//! The fields of a record.
ghost use Rattle.std.specs.Prelude.{◌≡◌, ◌++◌, ◌∷◌, [], OnOk, map};
ghost use Rattle.flat_records.specs.Records.{named, named_of};

use crate::field::{Field, FieldValue};
use std::alloc::{AllocError, Global};
use std::marker::Model;

/// The fields of a record, in their order.
#[derive(Drop)]
pub struct Fields<'a> {
    list: Vec<Field<'a>>,
}

impl<'a> Model for Fields<'a> {
    ghost use Rattle.std.specs.Prelude.{List, map};
    ghost use Rattle.flat_records.specs.Records.{Named, named_of};

    ghost Value = { List Named };

    ghost view = { λ fields. map named_of fields.list.items };
}

impl<'a> Fields<'a> {
    /// No fields.
    pub fn new(alloc: Global) -> Self
        ensures { result ≡ [] }
    {
        Fields {
            list: Vec::new(alloc),
        }
    }

    /// Puts a field of this name behind the others.
    pub fn push(&mut self, name: &'a [u8], value: FieldValue) -> Result<(), AllocError>
        ensures { OnOk result (self.new ≡ self.old ++ named name.entry.now value ∷ []) }
    {
        self.list.push(Field { name, value })?;
        Ok(())
    }

    /// The fields.
    pub(crate) fn list(&self) -> &[Field<'a>]
        ensures { map named_of result.now ≡ self.now }
    {
        &self.list
    }
}
