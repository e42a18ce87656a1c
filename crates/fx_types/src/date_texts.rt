// The texts of days.
ghost use Rattle.std.specs.Prelude.{◌≡◌, IfOk, string_bytes};
ghost use Rattle.fx_types.specs.DateText.{date_text as date_text_of};

use crate::Day;
use crate::civil::plain_date;
use fx_number::Memory;
use jiff::civil::Date;
use std::alloc::Global;

/// The text of a day, as `2024-05-01`.
pub fn date_text(alloc: Global, day: Day) -> Result<String, Memory>
    ensures { IfOk result (λ s. string_bytes s ≡ date_text_of day) }
{
    let date = Date::from_plain(plain_date(day));
    Ok(format!(in alloc; "{date}")?)
}
