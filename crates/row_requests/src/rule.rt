//! The rules of rows, as refusals name them.
ghost use Rattle.std.specs.Prelude.{◌≡◌};
ghost use Rattle.fx_types.specs.Words.{scalars_of};
ghost use Rattle.row_requests.specs.Changes.{kept_rule, rule_name};

use row_keeper::RowRule;

/// A rule of rows.
#[derive(Clone, Copy)]
pub enum Rule {
    /// What is given is named after a column, other than `ID`.
    Column,
    /// What is given is a value of its column's type, or blank.
    ColumnType,
    /// A required column is neither blank nor an empty text.
    Required,
    /// A unique column's value stands in no other row.
    Unique,
    /// A row weighs at most 2,048 bytes.
    Size,
    /// There is room for a new row.
    Full,
}

impl Rule {
    /// The rule that a keeper names.
    pub fn of(rule: RowRule) -> Rule
        ensures { result ≡ kept_rule rule }
    {
        match rule {
            RowRule::Required => Rule::Required,
            RowRule::Unique => Rule::Unique,
            RowRule::Size => Rule::Size,
            RowRule::Full => Rule::Full,
        }
    }

    /// The rule's name, as refusals give it.
    pub fn name(self) -> &'static str
        ensures { scalars_of result.now ≡ rule_name self }
    {
        match self {
            Rule::Column => "column",
            Rule::ColumnType => "type",
            Rule::Required => "required",
            Rule::Unique => "unique",
            Rule::Size => "size",
            Rule::Full => "full",
        }
    }
}
