//! Fields of records.
use desk_common::Items;

/// What a field of a record holds.
#[derive(Drop)]
pub enum FieldValue {
    Text(Items<u8>),
    Count(u64),
    Truth(bool),
    /// Nothing: an empty field, or null.
    Missing,
}

/// A field of a record.
#[derive(Drop)]
pub struct Field<'a> {
    pub name: &'a [u8],
    pub value: FieldValue,
}
