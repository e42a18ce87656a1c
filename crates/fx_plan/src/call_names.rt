//! What calls are named.
ghost use Rattle.std.specs.Prelude.{◌≡◌, option_map};
ghost use Rattle.fx_plan.specs.CallNames.{deed_name as deed_name_in, form_name as form_name_in};
ghost use Rattle.fx_plan.specs.CallNames.{function_name as function_name_in};

use fx_core::{Deed, Form, Fun};

/// The name of a function; an operator has none.
pub fn function_name(fun: Fun) -> Option<&'static str>
    ensures { option_map (λ n. n.now) result ≡ function_name_in fun }
{
    match fun {
        Fun::Abs => Some("Abs"),
        Fun::Int => Some("Int"),
        Fun::Trunc => Some("Trunc"),
        Fun::Round => Some("Round"),
        Fun::RoundUp => Some("RoundUp"),
        Fun::RoundDown => Some("RoundDown"),
        Fun::Mod => Some("Mod"),
        Fun::Power => Some("Power"),
        Fun::Sum => Some("Sum"),
        Fun::Min => Some("Min"),
        Fun::Max => Some("Max"),
        Fun::Average => Some("Average"),
        Fun::Value => Some("Value"),
        Fun::Len => Some("Len"),
        Fun::Left => Some("Left"),
        Fun::Right => Some("Right"),
        Fun::Mid => Some("Mid"),
        Fun::Lower => Some("Lower"),
        Fun::Upper => Some("Upper"),
        Fun::Trim => Some("Trim"),
        Fun::Find => Some("Find"),
        Fun::Substitute => Some("Substitute"),
        Fun::Replace => Some("Replace"),
        Fun::StartsWith => Some("StartsWith"),
        Fun::EndsWith => Some("EndsWith"),
        Fun::Concatenate => Some("Concatenate"),
        Fun::Text => Some("Text"),
        Fun::FormatNumber(_) => Some("Text"),
        Fun::FormatDate(_) => Some("Text"),
        Fun::Blank => Some("Blank"),
        Fun::IsBlank => Some("IsBlank"),
        Fun::Coalesce => Some("Coalesce"),
        Fun::IsError => Some("IsError"),
        Fun::IsBlankOrError => Some("IsBlankOrError"),
        Fun::Error => Some("Error"),
        Fun::Date => Some("Date"),
        Fun::DateAdd(_) => Some("DateAdd"),
        Fun::DateDiff(_) => Some("DateDiff"),
        Fun::Day => Some("Day"),
        Fun::Month => Some("Month"),
        Fun::Year => Some("Year"),
        Fun::Weekday => Some("Weekday"),
        Fun::DateValue => Some("DateValue"),
        Fun::Table => Some("Table"),
        Fun::Filter => Some("Filter"),
        Fun::LookUp => Some("LookUp"),
        Fun::Sort(_) => Some("Sort"),
        Fun::First => Some("First"),
        Fun::Last => Some("Last"),
        Fun::FirstN => Some("FirstN"),
        Fun::LastN => Some("LastN"),
        Fun::CountRows => Some("CountRows"),
        Fun::CountIf => Some("CountIf"),
        Fun::IsEmpty => Some("IsEmpty"),
        Fun::SumRows => Some("Sum"),
        Fun::MinRows => Some("Min"),
        Fun::MaxRows => Some("Max"),
        Fun::AverageRows => Some("Average"),
        Fun::AddColumns => Some("AddColumns"),
        Fun::DropColumns => Some("DropColumns"),
        Fun::ShowColumns => Some("ShowColumns"),
        Fun::RenameColumns => Some("RenameColumns"),
        Fun::GroupBy => Some("GroupBy"),
        Fun::Ungroup => Some("Ungroup"),
        Fun::Distinct => Some("Distinct"),
        Fun::ForAll => Some("ForAll"),
        Fun::Concat => Some("Concat"),
        _ => None,
    }
}

/// The name of a form; `And` and `Or` are operators.
pub fn form_name(form: Form) -> Option<&'static str>
    ensures { option_map (λ n. n.now) result ≡ form_name_in form }
{
    match form {
        Form::All | Form::Any => None,
        Form::If => Some("If"),
        Form::Switch => Some("Switch"),
        Form::IfError => Some("IfError"),
    }
}

/// The name of a function that changes state.
pub fn deed_name(deed: &Deed) -> &'static str
    ensures { result.now ≡ deed_name_in deed.now }
{
    match deed {
        Deed::Set(_) => "Set",
        Deed::UpdateContext(_) => "UpdateContext",
        Deed::Collect(_) => "Collect",
        Deed::Clear(_) => "Clear",
        Deed::ClearCollect(_) => "ClearCollect",
        Deed::Patch(_) => "Patch",
        Deed::Remove(_) => "Remove",
        Deed::RemoveIf(_) => "RemoveIf",
        Deed::UpdateIf(_) => "UpdateIf",
        Deed::Navigate(_) => "Navigate",
        Deed::Notify => "Notify",
        Deed::Reset(_) => "Reset",
    }
}
