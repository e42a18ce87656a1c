// What texts spell.
ghost use Rattle.std.specs.Prelude.{◌≡◌};
ghost use Rattle.field_texts.specs.Spelled.{spelled_day as day_spelled};
ghost use Rattle.field_texts.specs.Spelled.{spelled_number as number_spelled};
ghost use Rattle.field_texts.specs.Spelled.{spelled_truth as truth_spelled};

use fx_number::{Num, spelling_laws};
use fx_types::Day;

/// The number that a text spells as `fx_number::read` reads it, and none where it spells none or
/// one out of range.
pub fn spelled_number(text: &str) -> Option<Num>
    ensures { result ≡ number_spelled text.now }
{
    // Called for what it says: a text spells one number at most, which is found from left to right.
    spelling_laws();
    fx_number::read(text)
}

/// The day from 1900-01-01 to 9999-12-31 that a text names as `yyyy-mm-dd`, and none for every
/// other text.
pub fn spelled_day(text: &str) -> Option<Day>
    ensures { result ≡ day_spelled text.now }
{
    fx_primitives::date_value(text).ok()
}

/// The truth value whose name in lower case a text is, and none for every other text.
pub fn spelled_truth(text: &str) -> Option<bool>
    ensures { result ≡ truth_spelled text.now }
{
    match text {
        "true" => Some(true),
        "false" => Some(false),
        _ => None,
    }
}
