// The columns of a row that was read.
ghost use Rattle.sqlite_value.specs.Order.{column};
ghost use Rattle.sms_records.specs.Reading.{Gives};
ghost use Rattle.sms_sqlite.specs.Values.{bytes_in, number_in, text_in};

use crate::numbers::natural;
use sms_records::RecordErr;
use sqlite::Row;
use sqlite::types::ValueRef;

// The text in a column.
pub fn text_at(row: &Row, at: usize) -> Result<&[u8], RecordErr>
    ensures { Gives (λ text. text.now) result (text_in (column row.now at)) }
{
    match row.get_ref(at) {
        Ok(ValueRef::Text(text)) => Ok(text),
        _ => Err(RecordErr::Bad),
    }
}

// The bytes in a column.
pub fn bytes_at(row: &Row, at: usize) -> Result<&[u8], RecordErr>
    ensures { Gives (λ bytes. bytes.now) result (bytes_in (column row.now at)) }
{
    match row.get_ref(at) {
        Ok(ValueRef::Blob(bytes)) => Ok(bytes),
        _ => Err(RecordErr::Bad),
    }
}

// The number in a column, where it isn't below 0.
pub fn number_at(row: &Row, at: usize) -> Result<u64, RecordErr>
    ensures { Gives (λ number. number) result (number_in (column row.now at)) }
{
    match row.get_ref(at) {
        Ok(ValueRef::Int(number)) => natural(number),
        _ => Err(RecordErr::Bad),
    }
}
