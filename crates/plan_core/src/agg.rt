//! Aggregates.

/// What a group gives of its rows, the columns counted from 0. `Sum` and `Avg` are of numbers.
#[derive(Clone, Copy, Debug, PartialEq, Eq)]
pub enum Agg {
    /// How many rows the group has.
    Count,
    /// The exact sum of a column.
    Sum(u32),
    /// The least value of a column.
    Min(u32),
    /// The greatest value of a column.
    Max(u32),
    /// The first row's value.
    First(u32),
    /// The last row's value.
    Last(u32),
    /// The floor of the exact sum of a column by the number of rows.
    Avg(u32),
}
