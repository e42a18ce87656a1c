//! The table of operators: which function the types of the operands choose.
ghost use Rattle.std.specs.Prelude.{◌≡◌, option_map};
ghost use Rattle.fx_types.specs.TypeView.{shape};
ghost use Rattle.fx_typing.specs.Operators as operators;
ghost use Rattle.fx_node_typing.specs.ComparedView.{compared_view};

use fx_core::expr::Op;
use fx_core::functions::Fun;
use fx_types::types::Ty;

/// The type that `=` and `<>` compare two operands by.
#[derive(Clone, Copy)]
enum Compared {
    Numbers,
    Texts,
    Booleans,
    Dates,
}

// By its own type; Blank as a Number.
fn own_comparison(ty: &Ty) -> Option<Compared>
    ensures { option_map compared_view result ≡ operators.own_compared (shape ty.now) }
{
    match ty {
        Ty::Blank | Ty::Number => Some(Compared::Numbers),
        Ty::Text => Some(Compared::Texts),
        Ty::Boolean => Some(Compared::Booleans),
        Ty::Date => Some(Compared::Dates),
        Ty::Rec(_) | Ty::Tab(_) => None,
    }
}

// By one type, or that of the one that isn't Blank.
fn comparison(a: &Ty, b: &Ty) -> Option<Compared>
    ensures { option_map compared_view result ≡ operators.compared (shape a.now) (shape b.now) }
{
    match (a, b) {
        (Ty::Blank, other) | (other, Ty::Blank) => own_comparison(other),
        (Ty::Number, Ty::Number) => Some(Compared::Numbers),
        (Ty::Text, Ty::Text) => Some(Compared::Texts),
        (Ty::Boolean, Ty::Boolean) => Some(Compared::Booleans),
        (Ty::Date, Ty::Date) => Some(Compared::Dates),
        _ => None,
    }
}

fn equal_by(by: Compared) -> Fun
    ensures { result ≡ operators.equal_by (compared_view by) }
{
    match by {
        Compared::Numbers => Fun::EqualNumbers,
        Compared::Texts => Fun::EqualTexts,
        Compared::Booleans => Fun::EqualBooleans,
        Compared::Dates => Fun::EqualDates,
    }
}

fn unequal_by(by: Compared) -> Fun
    ensures { result ≡ operators.unequal_by (compared_view by) }
{
    match by {
        Compared::Numbers => Fun::UnequalNumbers,
        Compared::Texts => Fun::UnequalTexts,
        Compared::Booleans => Fun::UnequalBooleans,
        Compared::Dates => Fun::UnequalDates,
    }
}

// Texts and truths have no order.
fn ordering_function(numbers: Fun, dates: Fun, by: Option<Compared>) -> Option<Fun>
    ensures { result ≡ operators.ordered_by numbers dates (option_map compared_view by) }
{
    match by {
        Some(Compared::Numbers) => Some(numbers),
        Some(Compared::Dates) => Some(dates),
        Some(Compared::Texts | Compared::Booleans) | None => None,
    }
}

// Beside a Date the other operand is a Number or of type Blank.
fn sum_of(a: &Ty, b: &Ty) -> Option<Fun>
    ensures { result ≡ operators.date_sum (shape a.now) (shape b.now) }
{
    match (a, b) {
        (Ty::Date, Ty::Number | Ty::Blank) => Some(Fun::AddDateNumber),
        (Ty::Number | Ty::Blank, Ty::Date) => Some(Fun::AddNumberDate),
        (Ty::Date, _) | (_, Ty::Date) => None,
        _ => Some(Fun::AddNumbers),
    }
}

fn difference_of(a: &Ty, b: &Ty) -> Option<Fun>
    ensures { result ≡ operators.difference_of (shape a.now) (shape b.now) }
{
    match (a, b) {
        (Ty::Date | Ty::Blank, Ty::Date) => Some(Fun::SubDates),
        (Ty::Date, Ty::Number | Ty::Blank) => Some(Fun::SubDateNumber),
        (Ty::Date, _) | (_, Ty::Date) => None,
        _ => Some(Fun::SubNumbers),
    }
}

/// The function that an operator is for operands of these types, if there is one.
pub fn function_of(op: Op, a: &Ty, b: &Ty) -> Option<Fun>
    ensures { result ≡ operators.function_of op (shape a.now) (shape b.now) }
{
    match op {
        Op::Add => sum_of(a, b),
        Op::Sub => difference_of(a, b),
        Op::Mul => Some(Fun::MulNumbers),
        Op::Div => Some(Fun::DivNumbers),
        Op::Pow => Some(Fun::PowNumbers),
        Op::Eq => comparison(a, b).map(equal_by),
        Op::Ne => comparison(a, b).map(unequal_by),
        Op::Lt => ordering_function(Fun::LessNumbers, Fun::LessDates, comparison(a, b)),
        Op::Le => ordering_function(Fun::LessEqualNumbers, Fun::LessEqualDates, comparison(a, b)),
        Op::Gt => ordering_function(Fun::GreaterNumbers, Fun::GreaterDates, comparison(a, b)),
        Op::Ge => ordering_function(
            Fun::GreaterEqualNumbers,
            Fun::GreaterEqualDates,
            comparison(a, b),
        ),
        Op::In => Some(Fun::In),
        Op::ExactIn => Some(Fun::ExactIn),
    }
}
