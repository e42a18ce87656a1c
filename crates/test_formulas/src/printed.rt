//! Formulas as they are printed.
ghost use Rattle.std.specs.Prelude.{◌<◌, ◌^◌, length};

use crate::answer::{Answer, Stop};
use fx_core::expr::Expr;
use fx_parser::{ParseEnd, ReadBackEnd, bad_token, parse_formula, print, read_back, syntax_detail};

/// Writes a formula as it is printed, or the rule that it breaks.
pub fn write_row(answer: &mut Answer, line: &str) {
    if line.len() >= 4_294_967_296 {
        return answer.stop(Stop::NoRow);
    }
    match parse_formula(answer.alloc, line) {
        Ok(tree) => write_printed(answer, &tree),
        Err(end) => write_break(answer, line, end),
    }
}

/// Writes a formula as it is printed, where it can be read back from that text.
fn write_printed(answer: &mut Answer, tree: &Expr) {
    match read_back(answer.alloc, tree) {
        Ok(_) => answer.add_made(print(answer.alloc, tree)),
        Err(ReadBackEnd::Parse(ParseEnd::Memory)) => answer.stop(Stop::Memory),
        Err(_) => answer.add("Formula: not read back"),
    }
}

/// Writes the rule that a text breaks, as a refusal says it.
fn write_break(answer: &mut Answer, source: &str, end: ParseEnd)
    requires { length source.now < 2 ^ 32 }
{
    match end {
        ParseEnd::Lex(bad) => {
            answer.add_made(format!(in answer.alloc; "Formula: E1 BadToken at {}: ", bad.at));
            answer.add(bad_token(bad.what));
        }
        ParseEnd::Syntax(at) => {
            answer.add_made(format!(in answer.alloc; "Formula: E2 Syntax at {at}: "));
            match syntax_detail(answer.alloc, source, at) {
                Ok(what) => answer.add(what.as_str()),
                Err(_) => answer.stop(Stop::Memory),
            }
        }
        ParseEnd::TooDeep(at) => {
            answer.add_made(format!(in answer.alloc;
                "Formula: E3 TooDeep at {at}: deeper than 64"
            ));
        }
        ParseEnd::Memory => answer.stop(Stop::Memory),
    }
}
