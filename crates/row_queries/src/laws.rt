//! Laws of queries.
ghost use Rattle.row_queries.specs.Laws.{AskedOnce, RowsFit};

use fx_value::compare_is_total;

/// A law, and no work: of rows by rising numbers a query asks one list, so that a scan and a count
/// have one answer.
pub fn asked_once()
    ensures { AskedOnce }
{
    compare_is_total();
}

/// A law, and no work: rows that fit a lawful table are a table of its type.
pub fn rows_fit()
    ensures { RowsFit }
{}
