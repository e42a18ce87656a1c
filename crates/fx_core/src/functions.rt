//! The names of functions and operators.

use crate::literals::SortOrder;
use fx_types::formats::{DateFormat, NumberFormat, TimeUnit};

/// A pure function, or an operator with one row of its operands' types. Literal arguments (a unit,
/// an order, a format) are a part of the function. All other arguments are values.
#[derive(Clone, Copy, Debug, PartialEq, Eq)]
pub enum Fun {
    /// Number `+` Number
    AddNumbers,
    /// Date `+` Number
    AddDateNumber,
    /// Number `+` Date
    AddNumberDate,
    /// Number `-` Number
    SubNumbers,
    /// Date `-` Number
    SubDateNumber,
    /// Date `-` Date, a number of days
    SubDates,
    /// `*`
    MulNumbers,
    /// `/`
    DivNumbers,
    /// `^`
    PowNumbers,
    /// Postfix `%`
    Percent,
    /// Prefix `-`
    Negate,
    /// `&`, and the parts of a weave
    Concatenation,
    /// Number `=` Number, and Blank `=` Blank
    EqualNumbers,
    /// Text `=` Text
    EqualTexts,
    /// Boolean `=` Boolean
    EqualBooleans,
    /// Date `=` Date
    EqualDates,
    /// Number `<>` Number, and Blank `<>` Blank
    UnequalNumbers,
    /// Text `<>` Text
    UnequalTexts,
    /// Boolean `<>` Boolean
    UnequalBooleans,
    /// Date `<>` Date
    UnequalDates,
    /// Number `<` Number, and Blank `<` Blank
    LessNumbers,
    /// Date `<` Date
    LessDates,
    /// Number `<=` Number, and Blank `<=` Blank
    LessEqualNumbers,
    /// Date `<=` Date
    LessEqualDates,
    /// Number `>` Number, and Blank `>` Blank
    GreaterNumbers,
    /// Date `>` Date
    GreaterDates,
    /// Number `>=` Number, and Blank `>=` Blank
    GreaterEqualNumbers,
    /// Date `>=` Date
    GreaterEqualDates,
    /// `in`: a part of a text, without case
    In,
    /// `exactin`: a part of a text, with case
    ExactIn,
    /// `!`, `Not`
    Not,
    Abs,
    Int,
    Trunc,
    Round,
    RoundUp,
    RoundDown,
    Mod,
    Power,
    /// `Sum(N..)`
    Sum,
    /// `Min(N..)`
    Min,
    /// `Max(N..)`
    Max,
    /// `Average(N..)`
    Average,
    Value,
    Len,
    Left,
    Right,
    Mid,
    Lower,
    Upper,
    Trim,
    Find,
    Substitute,
    Replace,
    StartsWith,
    EndsWith,
    Concatenate,
    /// `Text(v)`
    Text,
    /// `Text(N, format)`
    FormatNumber(NumberFormat),
    /// `Text(D, format)`
    FormatDate(DateFormat),
    Blank,
    IsBlank,
    Coalesce,
    IsError,
    IsBlankOrError,
    Error,
    Date,
    DateAdd(TimeUnit),
    DateDiff(TimeUnit),
    Day,
    Month,
    Year,
    Weekday,
    DateValue,
    /// `Table(..)`, of the table that its rows make
    Table,
    Filter,
    LookUp,
    Sort(SortOrder),
    First,
    Last,
    FirstN,
    LastN,
    CountRows,
    CountIf,
    IsEmpty,
    /// `Sum(t, f)`
    SumRows,
    /// `Min(t, f)`
    MinRows,
    /// `Max(t, f)`
    MaxRows,
    /// `Average(t, f)`
    AverageRows,
    AddColumns,
    DropColumns,
    ShowColumns,
    RenameColumns,
    GroupBy,
    Ungroup,
    Distinct,
    ForAll,
    Concat,
}

/// A pure function that has a tree of its own, since it evaluates only the parts that it needs.
#[derive(Clone, Copy, PartialEq, Eq)]
pub enum Form {
    /// `&&`, `And`
    All,
    /// `||`, `Or`
    Any,
    If,
    Switch,
    IfError,
}

/// A function that changes state.
#[derive(Clone, Copy, PartialEq, Eq)]
pub enum Acting {
    Set,
    UpdateContext,
    Collect,
    Clear,
    ClearCollect,
    Patch,
    Remove,
    RemoveIf,
    UpdateIf,
    Navigate,
    Notify,
    Reset,
}
