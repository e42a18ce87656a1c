//! Keys, whose bytes are written as numbers, and the order of values.
ghost use Rattle.fx_types.specs.ValueView.{view};
ghost use Rattle.fx_value.specs.Order.{IsScalar};

use crate::page::Page;
use crate::parts::{Scalar, value_of};
use fx_base::Memory;
use fx_types::Value;
use fx_value::{compare, key_of};
use std::cmp::Ordering;
use view_text::plain;

/// The scalars whose keys are written.
const KEYED: [Scalar; 10] = [
    Scalar::Blank,
    Scalar::Number(-1),
    Scalar::Number(0),
    Scalar::Number(10_000),
    Scalar::Boolean(false),
    Scalar::Boolean(true),
    Scalar::Date(-25_567),
    Scalar::Date(0),
    Scalar::Text("ab"),
    Scalar::Text("abß"),
];

pub fn write(page: &mut Page) {
    page.add("# Keys");
    for scalar in KEYED {
        match value_of(page.alloc, scalar) {
            Ok(value) => add_key(page, &value),
            Err(Memory) => page.miss(),
        }
    }
    add_order(page, Scalar::Text("ab"), Scalar::Text("abß"));
    add_order(page, Scalar::Blank, Scalar::Text("ab"));
    add_order(page, Scalar::Text("abß"), Scalar::Text("abß"));
}

// Adds a value with the bytes of its key.
fn add_key(page: &mut Page, value: &Value)
    requires { IsScalar (view value.now) }
{
    page.put_made(plain(page.alloc, value));
    match key_of(page.alloc, value) {
        Ok(bytes) => {
            for byte in &bytes {
                page.put_made(format!(in page.alloc; " {byte}"));
            }
        }
        Err(_) => page.miss(),
    }
    page.add("");
}

// Adds how two values stand to one another.
fn add_order(page: &mut Page, left: Scalar, right: Scalar) {
    match value_of(page.alloc, left) {
        Ok(left) => add_order_to(page, &left, right),
        Err(Memory) => page.miss(),
    }
}

fn add_order_to(page: &mut Page, left: &Value, right: Scalar) {
    match value_of(page.alloc, right) {
        Ok(right) => add_compared(page, left, &right),
        Err(Memory) => page.miss(),
    }
}

fn add_compared(page: &mut Page, left: &Value, right: &Value) {
    page.put_made(plain(page.alloc, left));
    page.put(match compare(left, right) {
        Ordering::Less => " is below ",
        Ordering::Equal => " is as ",
        Ordering::Greater => " is above ",
    });
    page.add_made(plain(page.alloc, right));
}
