//! What becomes of rows that are to be kept.

/// A rule that rows keep.
#[derive(Clone, Copy, Debug, PartialEq, Eq)]
pub enum RowRule {
    /// A required column is neither blank nor an empty text.
    Required,
    /// A unique column's value stands in no other row of the table, blank excepted.
    Unique,
    /// The cells of a row weigh at most 2,048 bytes.
    Size,
    /// A table has at most 200,000 rows and all tables 500,000, and gives at most 4,294,967,295
    /// numbers.
    Full,
}

/// The first rule that a row breaks, with the number of the first column that breaks it where the
/// rule is one of columns. `ID` is column 0.
#[derive(Clone, Copy, Debug, PartialEq, Eq)]
pub struct RowRefusal {
    pub column: Option<u16>,
    pub rule: RowRule,
}

/// What became of a row that was to be kept.
#[derive(Clone, Copy, Debug, PartialEq, Eq)]
pub enum Put {
    /// It is kept under this number.
    Id(u32),
    /// There is no row of the number that was given.
    NoRow,
    /// It breaks a rule.
    Refused(RowRefusal),
}

/// What became of tables that were to move to another schema.
#[derive(Clone, Copy, Debug, PartialEq, Eq)]
pub enum Reshaped {
    /// They have moved.
    Done,
    /// A row of the new table of this number breaks a rule, which is never `Full`, and nothing has
    /// changed.
    Broken(u16, RowRefusal),
}
