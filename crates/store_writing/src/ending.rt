// The end of a transaction, as the changes of tables see it.
ghost use Rattle.std.specs.Prelude.{◌≡◌, map};
ghost use Rattle.store_model.specs.Laws.{AreEnded, IsEnded, count_at_end};

use row_changes::TableChanges;
use store_model::RowCount;

/// Ends a transaction of all tables, with its changes or without, and takes no memory.
pub fn end_all(tables: &mut Vec<TableChanges>, with_changes: bool)
    ensures { AreEnded with_changes tables.old.items tables.new.items }
{
    end_each(tables, with_changes);
}

fn end_each(tables: &mut [TableChanges], with_changes: bool)
    ensures { AreEnded with_changes tables.old tables.new }
{
    for table in tables.iter_mut() {
        end_one(table, with_changes);
    }
}

/// Ends the transaction of a table.
fn end_one(table: &mut TableChanges, with_changes: bool)
    ensures { IsEnded with_changes table.old table.new }
{
    if with_changes {
        table.settle();
    } else {
        table.restore();
    }
}

/// Ends a transaction in the counts of all tables.
pub fn end_counts(counts: &mut Vec<RowCount>, with_changes: bool)
    ensures { counts.new.items ≡ map (count_at_end with_changes) counts.old.items }
{
    end_each_count(counts, with_changes);
}

fn end_each_count(counts: &mut [RowCount], with_changes: bool)
    ensures { counts.new ≡ map (count_at_end with_changes) counts.old }
{
    for count in counts.iter_mut() {
        *count = count_ended(*count, with_changes);
    }
}

/// A count once a transaction has ended.
fn count_ended(count: RowCount, with_changes: bool) -> RowCount
    ensures { result ≡ count_at_end with_changes count }
{
    if with_changes {
        RowCount {
            now: count.now,
            then: count.now,
        }
    } else {
        RowCount {
            now: count.then,
            then: count.then,
        }
    }
}
