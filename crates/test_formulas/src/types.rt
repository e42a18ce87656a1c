//! Types as texts.

use crate::answer::{Answer, Stop};
use fx_types::types::{Columns, Ty};

/// Writes a type, of at most so many types in one another.
#[cycle(types)]
pub fn write_type(answer: &mut Answer, ty: &Ty, depth: u32) {
    if depth == 0 {
        return answer.stop(Stop::NoRow);
    }
    match ty {
        Ty::Blank => answer.add("Blank"),
        Ty::Number => answer.add("Number"),
        Ty::Text => answer.add("Text"),
        Ty::Boolean => answer.add("Boolean"),
        Ty::Date => answer.add("Date"),
        Ty::Rec(columns) => write_columns(answer, columns, depth - 1),
        Ty::Tab(columns) => {
            answer.add("[");
            write_columns(answer, columns, depth - 1);
            answer.add("]");
        }
    }
}

/// Writes columns.
#[cycle(types)]
fn write_columns(answer: &mut Answer, columns: &Columns, depth: u32) {
    answer.add("{");
    for (place, (name, ty)) in columns.as_slice().iter().enumerate() {
        answer.add_comma(place);
        answer.add(name.as_str());
        answer.add(": ");
        write_type(answer, ty, depth);
    }
    answer.add("}");
}
