// What the texts show of the tables.
use sqlite::Row;

// The rows that were shown of each table.
#[derive(Drop)]
pub struct ShownRows {
    pub sets: Vec<Row>,
    pub replies: Vec<Row>,
    pub decks: Vec<Row>,
    pub statuses: Vec<Row>,
    pub floors: Vec<Row>,
}
