//! How tightly the forms of formulas hold together.
ghost use Rattle.std.specs.Prelude.{◌≡◌, if◌then◌else◌};
ghost use Rattle.std.specs.Str.{IsAscii};
ghost use Rattle.fx_core.specs.Tree.{forest};
ghost use Rattle.fx_parser.specs.Printing.{operator_spelling, spaced};
ghost use Rattle.fx_parser.specs.Printing.{is_several as several, looseness as loose};
ghost use Rattle.fx_parser.specs.Printing.{line_of as tightest, left_line as left_of};
ghost use Rattle.fx_parser.specs.Printing.{right_line as right_of, line_of_op as line_of_operator};

use fx_core::expr::{Expr, Node, Op};
use fx_grammar::{Join, Left, Line};

/// How loosely the formulas of a line hold together.
pub fn looseness(line: Line) -> u8
    ensures { result ≡ loose line }
{
    match line {
        Line::Atom => 0,
        Line::Access => 1,
        Line::Percent => 2,
        Line::Power => 3,
        Line::Prefix => 4,
        Line::Alias => 5,
        Line::By(Left::Prod) => 6,
        Line::By(Left::Sum) => 7,
        Line::Several(Join::Cat) => 8,
        Line::By(Left::Comp) => 9,
        Line::By(Left::Member) => 10,
        Line::Several(Join::And) => 11,
        Line::Several(Join::Or) => 12,
        Line::Several(Join::Chain) => 13,
        Line::Chain => 14,
    }
}

/// The line of an operator.
fn line_of_op(op: Op) -> Line
    ensures { result ≡ line_of_operator op }
{
    match op {
        Op::Add => Line::By(Left::Sum),
        Op::Sub => Line::By(Left::Sum),
        Op::Mul => Line::By(Left::Prod),
        Op::Div => Line::By(Left::Prod),
        Op::Pow => Line::Power,
        Op::Eq => Line::By(Left::Comp),
        Op::Ne => Line::By(Left::Comp),
        Op::Lt => Line::By(Left::Comp),
        Op::Le => Line::By(Left::Comp),
        Op::Gt => Line::By(Left::Comp),
        Op::Ge => Line::By(Left::Comp),
        Op::In => Line::By(Left::Member),
        Op::ExactIn => Line::By(Left::Member),
    }
}

/// The line of an operator's left operand: all but `^` group to the left.
pub fn left_line(op: Op) -> Line
    ensures { result ≡ left_of op }
{
    match op {
        Op::Pow => Line::Percent,
        _ => line_of_op(op),
    }
}

/// The line of an operator's right operand.
pub fn right_line(op: Op) -> Line
    ensures { result ≡ right_of op }
{
    match op {
        Op::Add => Line::By(Left::Prod),
        Op::Sub => Line::By(Left::Prod),
        Op::Mul => Line::Alias,
        Op::Div => Line::Alias,
        Op::Pow => Line::Prefix,
        Op::Eq => Line::Several(Join::Cat),
        Op::Ne => Line::Several(Join::Cat),
        Op::Lt => Line::Several(Join::Cat),
        Op::Le => Line::Several(Join::Cat),
        Op::Gt => Line::Several(Join::Cat),
        Op::Ge => Line::Several(Join::Cat),
        Op::In => Line::By(Left::Comp),
        Op::ExactIn => Line::By(Left::Comp),
    }
}

/// An operator with its spaces.
pub fn operator_text(op: Op) -> &'static str
    ensures text { result.now ≡ spaced (operator_spelling op) }
    ensures ascii { IsAscii result.now }
{
    match op {
        Op::Add => " + ",
        Op::Sub => " - ",
        Op::Mul => " * ",
        Op::Div => " / ",
        Op::Pow => " ^ ",
        Op::Eq => " = ",
        Op::Ne => " <> ",
        Op::Lt => " < ",
        Op::Le => " <= ",
        Op::Gt => " > ",
        Op::Ge => " >= ",
        Op::In => " in ",
        Op::ExactIn => " exactin ",
    }
}

/// The tightest line that has the tree without brackets around it.
pub fn line_of(expr: &Expr) -> Line
    ensures { result ≡ tightest expr.now }
{
    match &expr.node {
        Node::Num(_) => Line::Atom,
        Node::Text(_) => Line::Atom,
        Node::Truth(_) => Line::Atom,
        Node::Name(_) => Line::Atom,
        Node::Global(_) => Line::Atom,
        Node::Dot(_, _) => Line::Access,
        Node::Call(_, _) => Line::Atom,
        Node::Neg(_) => Line::Prefix,
        Node::Not(_) => Line::Prefix,
        Node::Percent(_) => Line::Percent,
        Node::Pair(op, _, _) => line_of_op(*op),
        Node::Joined(_) => Line::Several(Join::Cat),
        Node::And(parts) => several_or_call(parts.as_slice(), Join::And),
        Node::Or(parts) => several_or_call(parts.as_slice(), Join::Or),
        Node::Chain(_) => Line::Several(Join::Chain),
        Node::Alias(_, _) => Line::Alias,
        Node::Rec(_) => Line::Atom,
        Node::List(_) => Line::Atom,
        Node::Woven(_) => Line::Atom,
    }
}

/// Whether there are two parts or more.
pub fn is_several(parts: &[Expr]) -> bool
    ensures { result ≡ several (forest parts.now) }
{
    match parts {
        [_, _, ..] => true,
        _ => false,
    }
}

/// Conditions, two or more, are joined; fewer are a call.
fn several_or_call(parts: &[Expr], join: Join) -> Line
    ensures { result ≡ (if several (forest parts.now) then Line.Several join else Line.Atom) }
{
    if is_several(parts) {
        Line::Several(join)
    } else {
        Line::Atom
    }
}
