//! Rows of extents.
use dsn_mask::Dsn;
use sms_construct::Extent;

/// An extent, with the name of the data set that holds it.
#[derive(Clone, Copy)]
pub struct ExtentRow {
    pub dsn: Dsn,
    pub extent: Extent,
}
