// The first and the last rows of a table.
ghost use Rattle.std.specs.Prelude.{◌≡◌, ◌-◌, length, take, drop};

use fx_types::values::Rows;

/// The first `n` rows, or all where there are fewer.
pub fn first_n(rows: Rows, n: u32) -> Rows
    ensures { result ≡ take n rows }
{
    let mut items = rows.into_items();
    items.truncate(n as usize);
    Rows::from_items(items)
}

/// The last `n` rows in their order, or all where there are fewer.
pub fn last_n(rows: Rows, n: u32) -> Rows
    ensures { result ≡ drop (length rows - n) rows }
{
    let mut items = rows.into_items();
    let skipped = items.len().saturating_sub(n as usize);
    let kept = items.len() - skipped;
    items.rotate_left(skipped);
    items.truncate(kept);
    Rows::from_items(items)
}
