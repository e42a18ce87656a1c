//! What is no number, and numbers rounded in every way and to any count of digits.

use crate::page::Page;
use fx_number::{Num, Way, read, round, text};
use fx_primitives::average;

/// The ten-thousandths of the greatest number.
const MOST: i64 = i64::MAX;

/// Numbers, by their ten-thousandths, and to how many digits they are rounded.
const ROUNDED: [(i64, i64); 22] = [
    (123_456_789, 5),
    (123_456_789, 4),
    (123_456_789, 3),
    (-123_456_789, 2),
    (123_456_789, 1),
    (123_456_789, -1),
    (123_456_789, -2),
    (-123_456_789, -3),
    (25_000, 0),
    (-25_000, 0),
    (24_999, 0),
    (-5, 3),
    (5_000_000, -3),
    (MOST, 3),
    (-MOST, 0),
    (MOST, -14),
    (MOST, -15),
    (MOST, -16),
    (-1, -30),
    (1, i64::MIN),
    (0, -30),
    (-7, i64::MAX),
];

pub fn write(page: &mut Page) {
    page.add("# Numbers");
    let least = Num::from_units(i64::MIN);
    page.add_answer("the least integer of 64 bits is a number", least.is_some());
    page.add_answer("an empty text spells a number", read("").is_some());
    page.add_answer("a space spells a number", read(" ").is_some());
    page.add_answer("no numbers have an average", average(&[]).is_some());
    page.add("# To so many digits: to the nearest, up, down, and to the lower number");
    for (units, digits) in ROUNDED {
        if let Some(number) = Num::from_units(units) {
            add_rounded(page, number, digits);
        }
    }
}

// Adds a number rounded in each way.
fn add_rounded(page: &mut Page, number: Num, digits: i64) {
    page.put_made(text(page.alloc, number));
    page.put_made(format!(in page.alloc; " to {digits}: "));
    put_rounded(page, number, digits, Way::Near);
    page.put(", ");
    put_rounded(page, number, digits, Way::Up);
    page.put(", ");
    put_rounded(page, number, digits, Way::Down);
    page.put(", ");
    put_rounded(page, number, digits, Way::Floor);
    page.add("");
}

fn put_rounded(page: &mut Page, number: Num, digits: i64, way: Way) {
    match round(number, digits, way) {
        Ok(number) => page.put_made(text(page.alloc, number)),
        Err(_) => page.put("out of range"),
    }
}
