// The laws of pages and batches.
ghost use Rattle.row_files.specs.Laws.{IsOneReading, PagesReadBack};

/// A law, and no work: a text has one list of records.
// A statement is proved only where it is a clause of a function, so a law is a function with an
// empty body.
pub fn one_reading()
    ensures { IsOneReading }
{}

/// A law, and no work: the batch of a page is the cells of its rows, where there are few rows, no
/// text of theirs is empty, no key is blank, no two rows have one key, and the first column's name
/// doesn't begin with U+FEFF.
pub fn pages_read_back()
    ensures { PagesReadBack }
{}
