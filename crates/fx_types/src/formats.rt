//! The units of time, and how numbers and dates are written.

/// The unit in which days are added and told apart.
#[derive(Clone, Copy, Debug, PartialEq, Eq)]
pub enum TimeUnit {
    Days,
    Months,
    Quarters,
    Years,
}

/// How a number is written, rounded half away from zero.
#[derive(Clone, Copy, Debug, PartialEq, Eq)]
pub enum NumberFormat {
    /// `0`
    Whole,
    /// `0.00`
    TwoDecimals,
    /// `0.0000`
    FourDecimals,
    /// `#,##0`: with `,` between groups of three
    Grouped,
    /// `#,##0.00`: with `,` between groups of three
    GroupedTwoDecimals,
}

/// How a date is written.
#[derive(Clone, Copy, Debug, PartialEq, Eq)]
pub enum DateFormat {
    /// `yyyy-mm-dd`
    YearMonthDay,
    /// `dd/mm/yyyy`
    DayMonthYear,
    /// `mm/dd/yyyy`
    MonthDayYear,
}
