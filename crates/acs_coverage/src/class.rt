// Classes of points.

/// What may happen at a point: a statement, a WHEN or a comparison.
#[derive(Clone, Copy)]
pub enum Class {
    Statement,
    When,
    Comparison,
}
