//! The functions that a formula can call.

use crate::page::Page;
use fx_core::TimeUnit;
use fx_core::functions::{Acting, Fun};
use fx_core::signatures::SigShape;
use fx_sig::{all, signature};

pub fn write(page: &mut Page) {
    page.add("# Signatures");
    page.add_answer("there are 81", all().len() == 81);
    add_signature(page, "Replace", SigShape::One(Fun::Replace));
    add_signature(
        page,
        "DateAdd",
        SigShape::Literal(Fun::DateAdd(TimeUnit::Days)),
    );
    add_signature(page, "Sum", SigShape::Either(Fun::Sum, Fun::SumRows));
    add_signature(page, "Patch", SigShape::Act(Acting::Patch));
    page.add_answer("abs is one", signature("abs").is_some());
    page.add_answer("Sequence is one", signature("Sequence").is_some());
}

// Adds how many parts a function takes, whether it acts, and whether it has this shape.
fn add_signature(page: &mut Page, name: &str, shape: SigShape) {
    let Some(found) = signature(name) else {
        page.add("none");
        return;
    };
    let (least, most, acts) = (found.least, found.most, found.acts);
    let is_so = found.shape == shape;
    page.add_made(format!(in page.alloc;
        "{name} takes {least} to {most}, acts {acts}, has the shape: {is_so}"
    ));
}
