//! Queries over the rows of a table.

use crate::ranges::RangeList;
use crate::row_tests::Test;

/// What is asked of a table: the rows whose keys lie in the ranges and which meet the test, in an
/// order. Tables and columns go by number, and `ID` is column 0.
#[derive(Drop)]
pub struct Query {
    pub table: u16,
    /// The column whose keys lie in the ranges.
    pub column: u16,
    /// Ranges of keys, which rise and don't overlap.
    pub ranges: RangeList,
    pub test: Test,
    /// The column that the rows are ordered by, and whether it falls; else `ID`. Ties go by rising
    /// `ID`.
    pub order: Option<(u16, bool)>,
    /// How many rows are given at most; else all.
    pub take: Option<u32>,
}
