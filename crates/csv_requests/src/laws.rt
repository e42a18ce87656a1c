//! The law of batches.
ghost use Rattle.csv_requests.specs.Laws.{BatchesGoIn};

use fx_value::compare_is_total;

/// A law, and no work: the lines of the batch of a text, read by the key of a unique column, can be
/// put into the table by it, and come again without a change.
// A statement is proved only where it is a clause of a function, so a law is a function with hardly
// a body: what it calls is called for what it says.
pub fn batches_go_in()
    ensures { BatchesGoIn }
{
    compare_is_total();
}
