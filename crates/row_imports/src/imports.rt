// Lines, one after another.
ghost use Rattle.std.specs.Prelude.{◌≡◌, ◌+◌, ◌-◌, ◌<◌, ◌^◌, true, IfOk, length};
ghost use Rattle.std.specs.List.{All};
ghost use Rattle.row_keeper.specs.Over.{Becomes, BeganStays, HasCause};
ghost use Rattle.row_keeper.specs.Tables.{shapes_of};
ghost use Rattle.row_imports.specs.Lines.{ImportsLines, IsHeading, IsImported, IsLineOf};
ghost use Rattle.row_imports.specs.Lines.{counted as counted_of};

use crate::lines::{Acted, Heading, put_line};
use fx_core::TableShape;
use row_keeper::{Keeper, KeeperEnd, RowRefusal};
use row_queries::Cells;
use std::alloc::Global;

/// How many rows an import added and changed.
#[derive(Clone, Copy, Debug, PartialEq, Eq)]
pub struct Counts {
    pub added: u32,
    pub changed: u32,
}

/// A line whose row breaks a rule.
#[derive(Clone, Copy, Debug, PartialEq, Eq)]
pub struct BrokenLine {
    /// The number of the line, from 1.
    pub at: u32,
    pub refusal: RowRefusal,
}

// The counts with one line more, or the rule that it breaks.
fn counted(counts: Counts, acted: Acted) -> Result<Counts, RowRefusal>
    requires { counts.added + counts.changed < 2 ^ 32 - 1 }
    ensures { result ≡ counted_of counts acted }
{
    match acted {
        Acted::Added => Ok(Counts {
            added: counts.added + 1,
            changed: counts.changed,
        }),
        Acted::Changed => Ok(Counts {
            added: counts.added,
            changed: counts.changed + 1,
        }),
        Acted::Broken(refusal) => Err(refusal),
    }
}

/// Puts lines into their table one after another, inside a transaction, up to the first that breaks
/// a rule of rows: each changes the row of its key in the columns that are named, or adds one with
/// the others blank. `shape` is the table's. Lines before one that breaks a rule have acted.
pub fn import_lines<K: Keeper>(
    alloc: Global,
    keeper: &mut K,
    shape: &TableShape,
    heading: &Heading,
    lines: &[Cells],
) -> Result<Result<Counts, BrokenLine>, KeeperEnd>
    requires begun { K.in_transaction keeper.old ≡ true }
    requires heading { IsHeading (shapes_of (K.shaped keeper.old).now) shape.now heading.now }
    requires lines { All (IsLineOf shape.now.columns heading.now) lines.now }
    requires few { length lines.now < 2 ^ 32 - 1 }
    ensures done { IfOk result (λ o. Becomes K.Keeper keeper.old keeper.new
        (ImportsLines shape.now.columns heading.now lines.now o)) }
    ensures may { IfOk result (IsImported shape.now.columns (length lines.now)) }
    ensures began { BeganStays K.Keeper keeper.old keeper.new }
    ensures cause { HasCause K.Keeper keeper.old keeper.new result }
    ensures open { K.in_transaction keeper.new ≡ true }
    ensures shaped { K.shaped keeper.new ≡ K.shaped keeper.old }
    ensures loan { K.loan keeper.new ≡ K.loan keeper.old }
{
    let mut counts = Counts {
        added: 0,
        changed: 0,
    };
    let mut at = 0;
    for line in lines {
        at += 1;
        match put_line(alloc, keeper, shape, heading, line) {
            Ok(acted) => match counted(counts, acted) {
                Ok(more) => counts = more,
                Err(refusal) => return Ok(Err(BrokenLine { at, refusal })),
            },
            Err(end) => return Err(end),
        }
    }
    Ok(Ok(counts))
}
