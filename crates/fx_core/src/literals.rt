//! Arguments that are literals. They are no values: each is a part of the function that is called.
ghost use Rattle.std.specs.Prelude.{◌≡◌};
ghost use Rattle.fx_core.specs.Literals as spelled;

use crate::functions::Fun;
use fx_types::faults::Kind;
use fx_types::formats::{DateFormat, NumberFormat, TimeUnit};

/// Whether rows go up or down.
#[derive(Clone, Copy, Debug, PartialEq, Eq)]
pub enum SortOrder {
    Ascending,
    Descending,
}

/// An enumeration, whose members are texts of their names.
#[derive(Clone, Copy)]
pub enum Enumeration {
    SortOrder,
    TimeUnit,
    ErrorKind,
}

fn time_unit(text: &str) -> Option<TimeUnit>
    ensures { result ≡ spelled.time_unit text.now }
{
    if text == "Days" {
        Some(TimeUnit::Days)
    } else if text == "Months" {
        Some(TimeUnit::Months)
    } else if text == "Quarters" {
        Some(TimeUnit::Quarters)
    } else if text == "Years" {
        Some(TimeUnit::Years)
    } else {
        None
    }
}

fn sort_order(text: &str) -> Option<SortOrder>
    ensures { result ≡ spelled.sort_order text.now }
{
    if text == "Ascending" {
        Some(SortOrder::Ascending)
    } else if text == "Descending" {
        Some(SortOrder::Descending)
    } else {
        None
    }
}

fn number_format(text: &str) -> Option<NumberFormat>
    ensures { result ≡ spelled.number_format text.now }
{
    if text == "0" {
        Some(NumberFormat::Whole)
    } else if text == "0.00" {
        Some(NumberFormat::TwoDecimals)
    } else if text == "0.0000" {
        Some(NumberFormat::FourDecimals)
    } else if text == "#,##0" {
        Some(NumberFormat::Grouped)
    } else if text == "#,##0.00" {
        Some(NumberFormat::GroupedTwoDecimals)
    } else {
        None
    }
}

fn date_format(text: &str) -> Option<DateFormat>
    ensures { result ≡ spelled.date_format text.now }
{
    if text == "yyyy-mm-dd" {
        Some(DateFormat::YearMonthDay)
    } else if text == "dd/mm/yyyy" {
        Some(DateFormat::DayMonthYear)
    } else if text == "mm/dd/yyyy" {
        Some(DateFormat::MonthDayYear)
    } else {
        None
    }
}

/// The text of a value by a format.
fn text_format(text: &str) -> Option<Fun>
    ensures { result ≡ spelled.formatting_function text.now }
{
    match number_format(text) {
        Some(format) => Some(Fun::FormatNumber(format)),
        None => match date_format(text) {
            Some(format) => Some(Fun::FormatDate(format)),
            None => None,
        },
    }
}

/// The function that a literal behind the other arguments makes of a function: the unit of
/// `DateAdd` and `DateDiff`, the order of `Sort`, the format of `Text`. None where the function
/// takes no such literal.
pub fn with_literal(fun: Fun, literal: &str) -> Option<Fun>
    ensures { result ≡ spelled.with_literal fun literal.now }
{
    match fun {
        Fun::DateAdd(_) => time_unit(literal).map(Fun::DateAdd),
        Fun::DateDiff(_) => time_unit(literal).map(Fun::DateDiff),
        Fun::Sort(_) => sort_order(literal).map(Fun::Sort),
        Fun::Text => text_format(literal),
        _ => None,
    }
}

/// The kind of an error of this name.
pub fn error_kind(name: &str) -> Option<Kind>
    ensures { result ≡ spelled.error_kind name.now }
{
    if name == "Div0" {
        Some(Kind::Div0)
    } else if name == "Numeric" {
        Some(Kind::Numeric)
    } else if name == "InvalidArgument" {
        Some(Kind::InvalidArgument)
    } else if name == "NotFound" {
        Some(Kind::NotFound)
    } else if name == "MissingRequired" {
        Some(Kind::MissingRequired)
    } else if name == "ConstraintViolated" {
        Some(Kind::ConstraintViolated)
    } else if name == "QuotaExceeded" {
        Some(Kind::QuotaExceeded)
    } else if name == "Validation" {
        Some(Kind::Validation)
    } else if name == "Custom" {
        Some(Kind::Custom)
    } else {
        None
    }
}

/// The enumeration of this name.
pub fn enumeration_of(name: &str) -> Option<Enumeration>
    ensures { result ≡ spelled.enumeration_of name.now }
{
    if name == "SortOrder" {
        Some(Enumeration::SortOrder)
    } else if name == "TimeUnit" {
        Some(Enumeration::TimeUnit)
    } else if name == "ErrorKind" {
        Some(Enumeration::ErrorKind)
    } else {
        None
    }
}

impl Enumeration {
    /// Whether it has a member of this name.
    pub fn has(self, member: &str) -> bool
        ensures { result ≡ spelled.has_member self member.now }
    {
        match self {
            Enumeration::SortOrder => sort_order(member).is_some(),
            Enumeration::TimeUnit => time_unit(member).is_some(),
            Enumeration::ErrorKind => error_kind(member).is_some(),
        }
    }
}
