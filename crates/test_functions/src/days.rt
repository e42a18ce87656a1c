//! The days of moments, numbers far from all days, and the dates of days.

use crate::page::Page;
use fx_core::TimeUnit;
use fx_primitives::{date, date_add, today};
use fx_types::{CivilDate, Day, Kind, civil_date, date_text, day_of_date};

/// Moments, in seconds since 1970-01-01.
const MOMENTS: [u64; 6] = [
    0,
    86_399,
    86_400,
    253_402_300_799,
    253_402_300_800,
    u64::MAX,
];

/// Days, by their numbers since 1970-01-01.
const DAYS: [i32; 8] = [-25_567, -25_509, -25_508, -1, 0, 11_016, 19_782, 2_932_896];

/// Years, months and days that are no dates.
const NO_DATES: [(u16, u8, u8); 6] = [
    (1899, 12, 31),
    (1900, 2, 29),
    (2024, 4, 31),
    (2023, 13, 1),
    (2023, 1, 0),
    (10_000, 1, 1),
];

pub fn write(page: &mut Page) {
    page.add("# Days");
    for moment in MOMENTS {
        add_day(page, today(moment));
    }
    for part in [i64::MIN, i64::MAX] {
        add_day(page, date(part, part, part));
    }
    if let Some(first) = Day::of(0) {
        add_day(page, date_add(first, i64::MAX, TimeUnit::Years));
        add_day(page, date_add(first, i64::MIN, TimeUnit::Days));
    }
    page.add("# Dates");
    for number in DAYS {
        if let Some(day) = Day::of(number) {
            page.put_made(format!(in page.alloc; "{number} is "));
            page.add_made(date_text(page.alloc, day));
            add_date(page, civil_date(day));
        }
    }
    for (year, month, day) in NO_DATES {
        add_date(page, CivilDate { year, month, day });
    }
}

fn add_day(page: &mut Page, day: Result<Day, Kind>) {
    match day {
        Ok(day) => page.add_made(date_text(page.alloc, day)),
        Err(Kind::InvalidArgument) => page.add("InvalidArgument"),
        Err(_) => page.add("another error"),
    }
}

fn add_date(page: &mut Page, date: CivilDate) {
    let CivilDate { year, month, day } = date;
    page.put_made(format!(in page.alloc; "{year} {month} {day} is "));
    match day_of_date(date) {
        Some(found) => page.add_made(format!(in page.alloc; "{}", found.days())),
        None => page.add("no date"),
    }
}
