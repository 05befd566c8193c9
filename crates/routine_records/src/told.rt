//! What is told of one happening.
use crate::happening::Happening;
use acs_places::Place;
use flat_records::FieldValue;

/// What is told of one happening: its place in the routine's text, the words that stand there, whether a comparison
/// holds, and the value that was compared, set or written, or what the variables hold.
#[derive(Drop)]
pub struct Told {
    pub event: Happening,
    pub place: Option<Place>,
    pub text: FieldValue,
    pub holds: FieldValue,
    pub value: FieldValue,
}
