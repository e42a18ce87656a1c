//! Printing a formula's tree.
ghost use Rattle.std.specs.Prelude.{◌≡◌, ◌++◌, ◌∷◌, [], ℕ, List, IfOk, OnOk, IsTrue, ◌↔◌};
ghost use Rattle.std.specs.Prelude.{MatchOption, Some, None, false, string_bytes, encode_utf8_all};
ghost use Rattle.std.specs.Prelude.{if◌then◌else◌};
ghost use Rattle.std.specs.Str.{chars, IsAscii};
ghost use Rattle.fx_number.specs.Spelling.{text_of};
ghost use Rattle.fx_core.specs.Tree.{node, forest, tree_field_names, field_trees};
ghost use Rattle.fx_core.specs.Tree as tree;
ghost use Rattle.fx_lexer.specs.Spelling.{begins_with, word_spelling};
ghost use Rattle.fx_grammar.specs.Formulas.{HasTree};
ghost use Rattle.fx_parser.specs.Printing.{shown, shown_parts, shown_further, shown_fields};
ghost use Rattle.fx_parser.specs.Printing.{shown_further_fields, shown_strands, island_text};
ghost use Rattle.fx_parser.specs.Printing.{label_text, strand_text, printed_piece, name_text};
ghost use Rattle.fx_parser.specs.Printing.{operator_spelling, spaced, in_brackets, comma_text};
ghost use Rattle.fx_parser.specs.Printing.{printed_within};
ghost use Rattle.fx_parser.specs.Printing.{is_text as is_text_tree, left_line as left_of};
ghost use Rattle.fx_parser.specs.Printing.{right_line as right_of};
ghost use Rattle.fx_parser.specs.SameTree.{HasTreeLike};
ghost use Rattle.fx_parser.specs.Fewest.{HasFewest};

use crate::names::{write_name, write_piece, write_quoted};
use crate::precedence::{is_several, left_line, line_of, looseness, operator_text, right_line};
use crate::writer::Writer;
use fx_base::Memory;
use fx_core::expr::{Expr, FieldName, Node, Op};
use fx_grammar::{Join, Left, Line};
use fx_lexer::Word;
use fx_number::Num;
use fx_types::words::Words;
use std::alloc::Global;

/// The text of a formula's tree, as the Power Fx formula reference spells it: one space on both
/// sides of an operator between two operands, and the fewest brackets. It takes memory for the text
/// alone.
pub fn print(alloc: Global, expr: &Expr) -> Result<String, Memory>
    ensures characters { IfOk result (λ s. chars (string_bytes s) ≡ shown expr.now) }
    ensures bytes { IfOk result (λ s. string_bytes s ≡ encode_utf8_all (shown expr.now)) }
    ensures same_tree { IfOk result (λ s. (n : ℕ) (cs : List ℕ) → HasTree n cs expr.now
        → HasTreeLike (chars (string_bytes s)) expr.now) }
    ensures fewest { IfOk result (λ s. (n : ℕ) (cs : List ℕ) → HasTree n cs expr.now
        → HasFewest (chars (string_bytes s)) expr.now) }
{
    let mut out = Writer::new(alloc);
    write(alloc, expr, &mut out)?;
    Ok(out.into_text())
}

/// Adds the text of a tree.
#[cycle(print)]
fn write(alloc: Global, expr: &Expr, out: &mut Writer) -> Result<(), Memory>
    ensures { OnOk result (out.new ≡ out.old ++ shown expr.now) }
{
    match &expr.node {
        Node::Num(value) => write_number(alloc, *value, out),
        Node::Text(words) => write_quoted(alloc, words, out),
        Node::Truth(value) => out.push_plain(truth_text(*value)),
        Node::Name(name) => write_name(alloc, name, out),
        Node::Global(name) => write_global(alloc, name, out),
        Node::Dot(part, name) => write_dot(alloc, part, name, out),
        Node::Call(name, args) => {
            write_name(alloc, name, out)?;
            write_args(alloc, args.as_slice(), out)
        }
        Node::Neg(part) => {
            out.push_plain("-")?;
            write_within(alloc, Line::Prefix, part, out)
        }
        Node::Not(part) => {
            out.push_plain("!")?;
            write_within(alloc, Line::Prefix, part, out)
        }
        Node::Percent(part) => {
            write_within(alloc, Line::Percent, part, out)?;
            out.push_plain("%")
        }
        Node::Pair(op, left, right) => write_pair(alloc, *op, left, right, out),
        Node::Joined(parts) => {
            write_parts(alloc, " & ", Line::By(Left::Sum), parts.as_slice(), out)
        }
        Node::And(parts) => write_all(alloc, parts.as_slice(), out),
        Node::Or(parts) => write_any(alloc, parts.as_slice(), out),
        Node::Chain(parts) => {
            write_parts(alloc, "; ", Line::Several(Join::Or), parts.as_slice(), out)
        }
        Node::Alias(part, name) => write_alias(alloc, part, name, out),
        Node::Rec(fields) => write_record(alloc, fields.as_slice(), out),
        Node::List(parts) => write_list(alloc, parts.as_slice(), out),
        Node::Woven(parts) => write_woven(alloc, parts.as_slice(), out),
    }
}

/// Adds a number.
fn write_number(alloc: Global, value: Num, out: &mut Writer) -> Result<(), Memory>
    ensures { OnOk result (out.new ≡ out.old ++ text_of value) }
{
    // Reading the units tells the proof that the number is in range, so that its digits are few.
    let _units = value.units();
    let text = fx_number::text(alloc, value)?;
    out.push_plain(text.as_str())
}

fn truth_text(value: bool) -> &'static str
    ensures text { result.now ≡ (if value then word_spelling Word.True else word_spelling
        Word.False) }
    ensures ascii { IsAscii result.now }
{
    if value { "true" } else { "false" }
}

/// Adds a name that is sought among the global ones alone.
fn write_global(alloc: Global, name: &Words, out: &mut Writer) -> Result<(), Memory>
    ensures { OnOk result (out.new ≡ out.old ++ 91 ∷ 64 ∷ (name_text name.now ++ 93 ∷ [])) }
{
    out.push_plain("[@")?;
    write_name(alloc, name, out)?;
    out.push_plain("]")
}

/// Adds a tree where this line stands: in brackets where its own line is looser.
#[cycle(print)]
fn write_within(alloc: Global, line: Line, expr: &Expr, out: &mut Writer) -> Result<(), Memory>
    ensures { OnOk result (out.new ≡ out.old ++ printed_within line expr.now (shown expr.now)) }
{
    if looseness(line_of(expr)) <= looseness(line) {
        return write(alloc, expr, out);
    }
    out.push_plain("(")?;
    write(alloc, expr, out)?;
    out.push_plain(")")
}

/// Adds a field of a tree.
#[cycle(print)]
fn write_dot(alloc: Global, part: &Expr, name: &Words, out: &mut Writer) -> Result<(), Memory>
    ensures { OnOk result (out.new ≡ out.old ++ (printed_within Line.Access part.now
        (shown part.now) ++ 46 ∷ name_text name.now)) }
{
    write_within(alloc, Line::Access, part, out)?;
    out.push_plain(".")?;
    write_name(alloc, name, out)
}

/// Adds a tree under a name for its rows.
#[cycle(print)]
fn write_alias(alloc: Global, part: &Expr, name: &Words, out: &mut Writer) -> Result<(), Memory>
    ensures { OnOk result (out.new ≡ out.old ++ (printed_within Line.Prefix part.now
        (shown part.now) ++ (spaced (word_spelling Word.As) ++ name_text name.now))) }
{
    write_within(alloc, Line::Prefix, part, out)?;
    out.push_plain(" As ")?;
    write_name(alloc, name, out)
}

/// Adds two trees with an operator between them.
#[cycle(print)]
fn write_pair(
    alloc: Global,
    op: Op,
    left: &Expr,
    right: &Expr,
    out: &mut Writer,
) -> Result<(), Memory>
    ensures { OnOk result (out.new ≡ out.old ++ (printed_within (left_of op) left.now
        (shown left.now) ++ (spaced (operator_spelling op)
        ++ printed_within (right_of op) right.now (shown right.now)))) }
{
    write_within(alloc, left_line(op), left, out)?;
    out.push_plain(operator_text(op))?;
    write_within(alloc, right_line(op), right, out)
}

/// Adds trees where this line stands, with a text between each two.
// The first stands apart, so that all turns of the loop are alike.
#[cycle(print)]
fn write_parts(
    alloc: Global,
    between: &str,
    line: Line,
    parts: &[Expr],
    out: &mut Writer,
) -> Result<(), Memory>
    requires { IsAscii between.now }
    ensures { OnOk result (out.new ≡ out.old ++ shown_parts between.now line (forest parts.now)) }
{
    match parts {
        [] => Ok(()),
        [first, others @ ..] => {
            write_within(alloc, line, first, out)?;
            write_further(alloc, between, line, others, out)
        }
    }
}

/// Adds further trees, each behind a text.
#[cycle(print)]
#[tactic(auto, using(crate::proofs::Writing::further_more, crate::proofs::Writing::further_end, crate::proofs::Falls::part_falls))]
fn write_further(
    alloc: Global,
    between: &str,
    line: Line,
    parts: &[Expr],
    out: &mut Writer,
) -> Result<(), Memory>
    requires { IsAscii between.now }
    ensures { OnOk result (out.new ≡ out.old ++ shown_further between.now line (forest parts.now)) }
{
    for part in parts {
        out.push_plain(between)?;
        write_within(alloc, line, part, out)?;
    }
    Ok(())
}

/// Adds arguments in brackets.
#[cycle(print)]
fn write_args(alloc: Global, parts: &[Expr], out: &mut Writer) -> Result<(), Memory>
    ensures { OnOk result (out.new ≡ out.old ++ in_brackets
        (shown_parts comma_text Line.Chain (forest parts.now))) }
{
    out.push_plain("(")?;
    write_parts(alloc, ", ", Line::Chain, parts, out)?;
    out.push_plain(")")
}

/// Adds conditions of which all must hold.
#[cycle(print)]
fn write_all(alloc: Global, parts: &[Expr], out: &mut Writer) -> Result<(), Memory>
    ensures { OnOk result (out.new ≡ out.old ++ shown (node 0 tree.all (forest parts.now))) }
{
    if is_several(parts) {
        return write_parts(alloc, " && ", Line::By(Left::Member), parts, out);
    }
    out.push_plain("And")?;
    write_args(alloc, parts, out)
}

/// Adds conditions of which one must hold.
#[cycle(print)]
fn write_any(alloc: Global, parts: &[Expr], out: &mut Writer) -> Result<(), Memory>
    ensures { OnOk result (out.new ≡ out.old ++ shown (node 0 tree.any (forest parts.now))) }
{
    if is_several(parts) {
        return write_parts(alloc, " || ", Line::Several(Join::And), parts, out);
    }
    out.push_plain("Or")?;
    write_args(alloc, parts, out)
}

/// Adds a table of these.
#[cycle(print)]
fn write_list(alloc: Global, parts: &[Expr], out: &mut Writer) -> Result<(), Memory>
    ensures { OnOk result (out.new ≡ out.old ++ 91
        ∷ (shown_parts comma_text Line.Chain (forest parts.now) ++ 93 ∷ [])) }
{
    out.push_plain("[")?;
    write_parts(alloc, ", ", Line::Chain, parts, out)?;
    out.push_plain("]")
}

/// Adds a record.
#[cycle(print)]
fn write_record(alloc: Global, fields: &[(FieldName, Expr)], out: &mut Writer) -> Result<(), Memory>
    ensures { OnOk result (out.new ≡ out.old ++ 123
        ∷ (shown_fields (tree_field_names fields.now) (field_trees fields.now) ++ 125 ∷ [])) }
{
    out.push_plain("{")?;
    write_fields(alloc, fields, out)?;
    out.push_plain("}")
}

/// Adds fields with commas between them.
#[cycle(print)]
fn write_fields(alloc: Global, fields: &[(FieldName, Expr)], out: &mut Writer) -> Result<(), Memory>
    ensures { OnOk result (out.new ≡ out.old ++ shown_fields (tree_field_names fields.now)
        (field_trees fields.now)) }
{
    match fields {
        [] => Ok(()),
        [(name, part), others @ ..] => {
            write_field(alloc, &name.text, part, out)?;
            write_further_fields(alloc, others, out)
        }
    }
}

/// Adds further fields, each behind a comma.
#[cycle(print)]
#[tactic(auto, using(crate::proofs::Writing::fields_more, crate::proofs::Writing::fields_end, crate::proofs::Falls::field_falls))]
fn write_further_fields(
    alloc: Global,
    fields: &[(FieldName, Expr)],
    out: &mut Writer,
) -> Result<(), Memory>
    ensures { OnOk result (out.new ≡ out.old ++ shown_further_fields (tree_field_names fields.now)
        (field_trees fields.now)) }
{
    for (name, part) in fields {
        out.push_plain(", ")?;
        write_field(alloc, &name.text, part, out)?;
    }
    Ok(())
}

/// Adds a field with its name.
#[cycle(print)]
fn write_field(alloc: Global, name: &Words, part: &Expr, out: &mut Writer) -> Result<(), Memory>
    ensures { OnOk result (out.new ≡ out.old ++ (label_text name.now
        ++ printed_within (Line.Several Join.Or) part.now (shown part.now))) }
{
    write_name(alloc, name, out)?;
    out.push_plain(": ")?;
    write_within(alloc, Line::Several(Join::Or), part, out)
}

/// Adds a weave.
#[cycle(print)]
fn write_woven(alloc: Global, parts: &[Expr], out: &mut Writer) -> Result<(), Memory>
    ensures { OnOk result (out.new ≡ out.old ++ 36 ∷ 34
        ∷ (shown_strands false (forest parts.now) ++ 34 ∷ [])) }
{
    out.push_plain("$\"")?;
    write_strands(alloc, parts, out)?;
    out.push_plain("\"")
}

/// Adds the pieces and islands of a weave.
#[cycle(print)]
#[tactic(auto, using(crate::proofs::Writing::strands_more, crate::proofs::Writing::strands_end, crate::proofs::Falls::part_falls))]
fn write_strands(alloc: Global, parts: &[Expr], out: &mut Writer) -> Result<(), Memory>
    ensures { OnOk result (out.new ≡ out.old ++ shown_strands false (forest parts.now)) }
{
    let mut after_text = false;
    for part in parts {
        write_strand(alloc, after_text, part, out)?;
        after_text = is_text(part);
    }
    Ok(())
}

/// Adds a piece or an island.
#[cycle(print)]
fn write_strand(
    alloc: Global,
    after_text: bool,
    part: &Expr,
    out: &mut Writer,
) -> Result<(), Memory>
    ensures { OnOk result (out.new ≡ out.old ++ strand_text (printed_piece after_text part.now)
        (shown part.now)) }
{
    match piece(after_text, part) {
        Some(words) => write_piece(alloc, words, out),
        None => write_island(alloc, part, out),
    }
}

/// Adds an island, with a space before a text that begins with a brace.
#[cycle(print)]
fn write_island(alloc: Global, part: &Expr, out: &mut Writer) -> Result<(), Memory>
    ensures { OnOk result (out.new ≡ out.old ++ island_text (shown part.now)) }
{
    // Written by itself first, since only its text tells whether it begins with a brace.
    let mut inner = Writer::new(alloc);
    write(alloc, part, &mut inner)?;
    out.push_plain(island_opening(inner.begins_with_brace()))?;
    out.push_text(inner.as_str())?;
    out.push_plain("}")
}

fn island_opening(has_space: bool) -> &'static str
    ensures text { result.now ≡ (if has_space then 123 ∷ 32 ∷ [] else 123 ∷ []) }
    ensures ascii { IsAscii result.now }
{
    if has_space { "{ " } else { "{" }
}

fn is_text(part: &Expr) -> bool
    ensures { result ≡ is_text_tree part.now }
{
    matches!(part.node, Node::Text(_))
}

fn is_empty(words: &Words) -> bool
    ensures { IsTrue result ↔ (words.now ≡ []) }
{
    words.as_str().is_empty()
}

/// The words of a part that is a piece: a text that is not empty, and behind no text.
fn piece(after_text: bool, part: &Expr) -> Option<&Words>
    ensures { MatchOption result (printed_piece after_text part.now ≡ None)
        (λ w. printed_piece after_text part.now ≡ Some w.now) }
{
    match &part.node {
        Node::Text(words) => {
            if after_text {
                None
            } else if is_empty(words) {
                None
            } else {
                Some(words)
            }
        }
        _ => None,
    }
}
