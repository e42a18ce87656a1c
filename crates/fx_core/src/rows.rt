//! What each function and operator takes and answers.
ghost use Rattle.std.specs.Prelude.{◌≡◌};
ghost use Rattle.fx_types.specs.TypeView.{shape};
ghost use Rattle.fx_core.specs.Rows as table;

use crate::functions::{Form, Fun};
use fx_types::types::Ty;

/// A type without parts.
#[derive(Clone, Copy)]
pub enum Scalar {
    Blank,
    Number,
    Text,
    Boolean,
    Date,
}

/// What stands at a place of a call.
#[derive(Clone, Copy)]
pub enum Takes {
    /// A value that is coerced to this type.
    Scalar(Scalar),
    /// A value of this type or of type Blank.
    Exact(Scalar),
    /// A value of any type.
    Any,
    /// A record with a field `Kind`, whose fields `Kind` and `Message` have coercions to Text.
    ErrorRecord,
    /// A table, which may have a name for its rows by `As`.
    Table,
    /// A formula in the scope of the table's row, which is coerced to this type.
    Formula(Scalar),
    /// A formula in the scope of the table's row, of a type without parts.
    ScalarFormula,
    /// A formula in the scope of the table's row, of any type.
    AnyFormula,
    /// A formula in the scope of the table's row that may act, a record or of a type without parts.
    RowFormula,
    /// A value that the call may answer, coerced to the common type of all these. It doesn't act.
    Choice,
    /// A value that the call may answer, coerced to the common type of all these. It may act.
    Branch,
    /// A branch that stands in for an error and may name it.
    Fallback,
    /// A value without parts that is compared with the matches by `=`.
    Compared,
    /// A value that `=` compares with the value at the first place.
    Match,
    /// The name of a column of the table, or a new one behind such names.
    Column,
    /// The name of a new column.
    NewColumn,
}

/// How the arguments of a call end.
#[derive(Clone, Copy)]
pub enum Ending {
    /// With any number that is between the least and the greatest.
    Open,
    /// With a whole pair: behind the first argument they stand in pairs.
    Whole,
    /// With a branch, whatever else stands at that place.
    Branch,
}

/// The type of what a call answers.
#[derive(Clone, Copy)]
pub enum Answer {
    /// This type.
    Scalar(Scalar),
    /// The type of the first argument.
    Same,
    /// A row of the first argument, which is a table.
    Row,
    /// The type of the third argument, and where there is none a row of the first.
    Found,
    /// The common type of the branches.
    Common,
    /// The first argument with new columns.
    Added,
    /// The first argument without columns.
    Dropped,
    /// The first argument with these columns alone.
    Shown,
    /// The first argument with columns under new names.
    Renamed,
    /// A table of the columns that are named, and under the last name, which is new, of tables of
    /// the others.
    Grouped,
    /// The first argument with the columns of the tables in a column in the place of that one.
    Ungrouped,
    /// A table whose column `Value` has the type of the second argument.
    Values,
    /// A table of the second argument's records, or of its scalars as `Value`.
    Each,
}

/// What a function takes and answers.
#[derive(Clone, Copy)]
pub struct Row {
    pub first: Takes,
    pub second: Takes,
    /// What stands at the third place, and at every second one from there.
    pub third: Takes,
    /// What stands at the fourth place, and at every second one from there.
    pub fourth: Takes,
    pub ending: Ending,
    /// The least number of arguments.
    pub least: u8,
    /// The greatest number of arguments, where 255 means any number.
    pub most: u8,
    pub answer: Answer,
}

impl Scalar {
    /// The type of the values.
    pub fn ty(self) -> Ty
        ensures { shape result ≡ table.shape_of self }
    {
        match self {
            Scalar::Blank => Ty::Blank,
            Scalar::Number => Ty::Number,
            Scalar::Text => Ty::Text,
            Scalar::Boolean => Ty::Boolean,
            Scalar::Date => Ty::Date,
        }
    }
}

impl Row {
    /// What stands at a place, counted from 0, of a call with so many arguments.
    pub fn takes(self, count: usize, place: usize) -> Takes
        ensures { result ≡ table.takes_at self count place }
    {
        if let Ending::Branch = self.ending
            && count > 0
            && place == count - 1
        {
            return Takes::Branch;
        }
        match place {
            0 => self.first,
            1 => self.second,
            _ if place % 2 == 0 => self.third,
            _ => self.fourth,
        }
    }

    /// Whether a call may have so many arguments.
    pub fn takes_count(self, count: usize) -> bool
        ensures { result ≡ table.takes_count self count }
    {
        let whole = match self.ending {
            Ending::Whole => count % 2 == 1,
            Ending::Open | Ending::Branch => true,
        };
        is_within(self.least, self.most, count) && whole
    }
}

/// Whether a number of arguments lies between the least and the greatest, where 255 means any
/// number.
pub fn is_within(least: u8, most: u8, count: usize) -> bool
    ensures { result ≡ table.is_arity least most count }
{
    least as usize <= count && (most == 255 || count <= most as usize)
}

fn open_row(least: u8, most: u8, places: (Takes, Takes, Takes, Takes), answer: Answer) -> Row
    ensures { result ≡ table.placed least most places.0 places.1 places.2 places.3 answer }
{
    let (first, second, third, fourth) = places;
    Row {
        first,
        second,
        third,
        fourth,
        ending: Ending::Open,
        least,
        most,
        answer,
    }
}

fn whole_row(first: Takes, second: Takes, third: Takes, fourth: Takes, answer: Answer) -> Row
    ensures { result ≡ table.paired first second third fourth answer }
{
    Row {
        first,
        second,
        third,
        fourth,
        ending: Ending::Whole,
        least: 3,
        most: 255,
        answer,
    }
}

fn branch_row(least: u8, first: Takes, second: Takes, third: Takes, fourth: Takes) -> Row
    ensures { result ≡ table.branched least first second third fourth }
{
    Row {
        first,
        second,
        third,
        fourth,
        ending: Ending::Branch,
        least,
        most: 255,
        answer: Answer::Common,
    }
}

fn scalars(least: u8, most: u8, places: (Scalar, Scalar, Scalar, Scalar), answer: Scalar) -> Row
    ensures { result ≡ table.scalars least most places.0 places.1 places.2 places.3 answer }
{
    let (first, second, third, fourth) = places;
    let places = (
        Takes::Scalar(first),
        Takes::Scalar(second),
        Takes::Scalar(third),
        Takes::Scalar(fourth),
    );
    open_row(least, most, places, Answer::Scalar(answer))
}

// Places that no such call has are filled with a type that it takes, here and below.
fn one(first: Scalar, answer: Scalar) -> Row
    ensures { result ≡ table.one first answer }
{
    scalars(1, 1, (first, first, first, first), answer)
}

fn two(first: Scalar, second: Scalar, answer: Scalar) -> Row
    ensures { result ≡ table.two first second answer }
{
    scalars(2, 2, (first, second, second, second), answer)
}

fn many(each: Scalar, answer: Scalar) -> Row
    ensures { result ≡ table.many each answer }
{
    scalars(1, 255, (each, each, each, each), answer)
}

fn each(least: u8, most: u8, takes: Takes, answer: Answer) -> Row
    ensures { result ≡ table.placed least most takes takes takes takes answer }
{
    open_row(least, most, (takes, takes, takes, takes), answer)
}

fn over(least: u8, most: u8, second: Takes, rest: Takes, answer: Answer) -> Row
    ensures { result ≡ table.over least most second rest answer }
{
    open_row(least, most, (Takes::Table, second, rest, rest), answer)
}

/// What a function takes and answers.
pub fn row_of(fun: Fun) -> Row
    ensures { result ≡ table.row_of fun }
{
    use Scalar::{Blank, Boolean, Date, Number, Text};
    let condition = Takes::Formula(Boolean);
    let key = Takes::ScalarFormula;
    let number = Takes::Scalar(Number);
    match fun {
        Fun::AddNumbers | Fun::SubNumbers | Fun::MulNumbers | Fun::DivNumbers | Fun::PowNumbers => {
            two(Number, Number, Number)
        }
        Fun::AddDateNumber | Fun::SubDateNumber | Fun::DateAdd(_) => two(Date, Number, Date),
        Fun::AddNumberDate => two(Number, Date, Date),
        Fun::SubDates | Fun::DateDiff(_) => two(Date, Date, Number),
        Fun::Percent | Fun::Negate | Fun::Abs | Fun::Int | Fun::Trunc => one(Number, Number),
        Fun::Concatenation | Fun::Concatenate => many(Text, Text),
        Fun::EqualNumbers
        | Fun::UnequalNumbers
        | Fun::LessNumbers
        | Fun::LessEqualNumbers
        | Fun::GreaterNumbers
        | Fun::GreaterEqualNumbers => two(Number, Number, Boolean),
        Fun::EqualTexts | Fun::UnequalTexts => two(Text, Text, Boolean),
        Fun::EqualBooleans | Fun::UnequalBooleans => two(Boolean, Boolean, Boolean),
        Fun::EqualDates
        | Fun::UnequalDates
        | Fun::LessDates
        | Fun::LessEqualDates
        | Fun::GreaterDates
        | Fun::GreaterEqualDates => two(Date, Date, Boolean),
        Fun::In | Fun::ExactIn | Fun::StartsWith | Fun::EndsWith => two(Text, Text, Boolean),
        Fun::Not => one(Boolean, Boolean),
        Fun::Round | Fun::RoundUp | Fun::RoundDown | Fun::Mod | Fun::Power => {
            two(Number, Number, Number)
        }
        Fun::Sum | Fun::Min | Fun::Max | Fun::Average => many(Number, Number),
        Fun::Value | Fun::Len => one(Text, Number),
        Fun::Left | Fun::Right => two(Text, Number, Text),
        Fun::Mid => scalars(2, 3, (Text, Number, Number, Number), Text),
        Fun::Lower | Fun::Upper | Fun::Trim | Fun::Text => one(Text, Text),
        Fun::Find => scalars(2, 3, (Text, Text, Number, Number), Number),
        Fun::Substitute => scalars(3, 4, (Text, Text, Text, Number), Text),
        Fun::Replace => scalars(4, 4, (Text, Number, Number, Text), Text),
        Fun::FormatNumber(_) => each(1, 1, Takes::Exact(Number), Answer::Scalar(Text)),
        Fun::FormatDate(_) => each(1, 1, Takes::Exact(Date), Answer::Scalar(Text)),
        Fun::Blank => scalars(0, 0, (Blank, Blank, Blank, Blank), Blank),
        Fun::IsBlank | Fun::IsError | Fun::IsBlankOrError => {
            each(1, 1, Takes::Any, Answer::Scalar(Boolean))
        }
        Fun::Coalesce => each(1, 255, Takes::Choice, Answer::Common),
        Fun::Error => each(1, 1, Takes::ErrorRecord, Answer::Scalar(Blank)),
        Fun::Date => scalars(3, 3, (Number, Number, Number, Number), Date),
        Fun::Day | Fun::Month | Fun::Year | Fun::Weekday => one(Date, Number),
        Fun::DateValue => one(Text, Date),
        Fun::Table => each(1, 1, Takes::Any, Answer::Same),
        Fun::Filter => over(2, 255, condition, condition, Answer::Same),
        Fun::LookUp => over(2, 3, condition, Takes::AnyFormula, Answer::Found),
        Fun::Sort(_) => over(2, 2, key, key, Answer::Same),
        Fun::First | Fun::Last => over(1, 1, Takes::Any, Takes::Any, Answer::Row),
        Fun::FirstN | Fun::LastN => over(1, 2, number, number, Answer::Same),
        Fun::CountRows => over(1, 1, Takes::Any, Takes::Any, Answer::Scalar(Number)),
        Fun::CountIf => over(2, 255, condition, condition, Answer::Scalar(Number)),
        Fun::IsEmpty => over(1, 1, Takes::Any, Takes::Any, Answer::Scalar(Boolean)),
        Fun::SumRows | Fun::MinRows | Fun::MaxRows | Fun::AverageRows => {
            let formula = Takes::Formula(Number);
            over(2, 2, formula, formula, Answer::Scalar(Number))
        }
        Fun::AddColumns => whole_row(
            Takes::Table,
            Takes::NewColumn,
            Takes::AnyFormula,
            Takes::NewColumn,
            Answer::Added,
        ),
        Fun::DropColumns => over(2, 255, Takes::Column, Takes::Column, Answer::Dropped),
        Fun::ShowColumns => over(2, 255, Takes::Column, Takes::Column, Answer::Shown),
        Fun::RenameColumns => whole_row(
            Takes::Table,
            Takes::Column,
            Takes::NewColumn,
            Takes::Column,
            Answer::Renamed,
        ),
        Fun::GroupBy => over(3, 255, Takes::Column, Takes::Column, Answer::Grouped),
        Fun::Ungroup => over(2, 2, Takes::Column, Takes::Column, Answer::Ungrouped),
        Fun::Distinct => over(2, 2, key, key, Answer::Values),
        Fun::ForAll => over(2, 2, Takes::RowFormula, Takes::RowFormula, Answer::Each),
        Fun::Concat => over(
            2,
            3,
            Takes::Formula(Text),
            Takes::Scalar(Text),
            Answer::Scalar(Text),
        ),
    }
}

/// What a form takes and answers.
pub fn form_row(form: Form) -> Row
    ensures { result ≡ table.form_row form }
{
    let condition = Takes::Scalar(Scalar::Boolean);
    let branch = Takes::Branch;
    let fallback = Takes::Fallback;
    match form {
        Form::All | Form::Any => many(Scalar::Boolean, Scalar::Boolean),
        Form::If => branch_row(2, condition, branch, condition, branch),
        Form::Switch => branch_row(3, Takes::Compared, Takes::Match, branch, Takes::Match),
        Form::IfError => open_row(2, 255, (branch, fallback, branch, fallback), Answer::Common),
    }
}
