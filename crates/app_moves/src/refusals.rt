// How moves are refused.
ghost use Rattle.std.specs.Prelude.{◌≡◌, ◌<◌, [], IfOk, Some, length, option_map, unwrap_or};
ghost use Rattle.fx_types.specs.Words.{scalars_of};
ghost use Rattle.app_moves.specs.Broken as broken;
ghost use Rattle.app_moves.specs.Moves as moves_by;
ghost use Rattle.app_moves.specs.Refusals as refusals;

use crate::broken::{broken_move, mistyped_column};
use crate::moves::Move;
use crate::tables::source_of;
use fx_base::Memory;
use fx_core::{Column, TableShape};
use fx_types::Words;
use row_keeper::{RowRefusal, RowRule};
use std::alloc::Global;
use view_text::{Detail, Refusal};

/// A rule of moves.
#[derive(Clone, Copy)]
pub enum Rule {
    /// A move names what is there and what comes, each once.
    Moves,
    /// A column has the type of its source.
    Types,
    /// A rule of rows.
    Rows(RowRule),
}

/// The refusal of a rule that breaks in a column of a table.
fn refuse(alloc: Global, table: &Words, column: &str, rule: Rule) -> Result<Refusal, Memory>
    ensures { IfOk result (λ r. r ≡ refusals.move_refusal table.now (scalars_of column.now)
        (refusals.word rule)) }
{
    let table = table.copy(alloc)?;
    let column = Words::of(alloc, column)?;
    let rule = Words::of(alloc, word(rule))?;
    Ok(Refusal {
        code: 27,
        detail: Detail::Move(table, column, rule),
    })
}

/// The column that a move names, or an empty text.
fn column_given(step: &Move) -> &str
    ensures { scalars_of result.now ≡ unwrap_or step.now.column [] }
{
    match &step.column {
        Some(name) => name.as_str(),
        None => "",
    }
}

/// The refusal of a move that breaks a rule of moves.
fn refuse_move(alloc: Global, step: &Move) -> Result<Refusal, Memory>
    ensures { IfOk result (λ r. r ≡ refusals.broken_refusal step.now) }
{
    refuse(alloc, &step.table, column_given(step), Rule::Moves)
}

/// The refusal of a column whose source has another type.
fn refuse_type(alloc: Global, new: &TableShape, column: &Column) -> Result<Refusal, Memory>
    ensures { IfOk result (λ r. r ≡ refusals.type_refusal new.now column.now) }
{
    refuse(alloc, &new.name, column.name.as_str(), Rule::Types)
}

/// The refusal of the first column of a new table whose source has another type, if there is one.
fn refuse_types(
    alloc: Global,
    olds: &[TableShape],
    moves: &[Move],
    new: &TableShape,
) -> Result<Option<Refusal>, Memory>
    ensures { IfOk result (λ r. r ≡ option_map (refusals.type_refusal new.now)
        (broken.mistyped_column moves.now
        (moves_by.source_of olds.now moves.now new.now.name) new.now)) }
{
    match mistyped_column(moves, source_of(olds, moves, &new.name), new) {
        Some(column) => Ok(Some(refuse_type(alloc, new, column)?)),
        None => Ok(None),
    }
}

/// The refusal of the first column of all new tables whose source has another type.
fn mistyped_refusal(
    alloc: Global,
    olds: &[TableShape],
    news: &[TableShape],
    moves: &[Move],
) -> Result<Option<Refusal>, Memory>
    ensures { IfOk result (λ r. r ≡ refusals.mistyped_refusal olds.now moves.now news.now) }
{
    for new in news {
        if let Some(refusal) = refuse_types(alloc, olds, moves, new)? {
            return Ok(Some(refusal));
        }
    }
    Ok(None)
}

/// Why tables can't move so, before a row is looked at: the first move that breaks a rule of moves,
/// and where none does the first column that comes from one of another type. None where they can.
pub fn moves_refusal(
    alloc: Global,
    olds: &[TableShape],
    news: &[TableShape],
    moves: &[Move],
) -> Result<Option<Refusal>, Memory>
    ensures { IfOk result (λ r. r ≡ refusals.moves_refusal olds.now news.now moves.now) }
{
    match broken_move(olds, news, moves) {
        Some(step) => Ok(Some(refuse_move(alloc, step)?)),
        None => mistyped_refusal(alloc, olds, news, moves),
    }
}

/// The word of a rule of rows.
fn row_word(rule: RowRule) -> &'static str
    ensures { scalars_of result.now ≡ refusals.row_word rule }
{
    match rule {
        RowRule::Required => "required",
        RowRule::Unique => "unique",
        RowRule::Size => "size",
        RowRule::Full => "full",
    }
}

/// The word of a rule of moves.
fn word(rule: Rule) -> &'static str
    ensures { scalars_of result.now ≡ refusals.word rule }
{
    match rule {
        Rule::Moves => "move",
        Rule::Types => "type",
        Rule::Rows(rule) => row_word(rule),
    }
}

/// The name of the column of a number, where `ID` is 0.
fn name_at(columns: &[Column], column: Option<u16>) -> &str
    ensures { scalars_of result.now ≡ refusals.name_at columns.now column }
{
    match column {
        Some(number) => match columns.get(usize::from(number).saturating_sub(1)) {
            Some(column) => column.name.as_str(),
            None => "",
        },
        None => "",
    }
}

/// Why tables can't move so: the rule that a row of the new table of this number breaks, as a
/// keeper named it.
pub fn rows_refusal(
    alloc: Global,
    news: &[TableShape],
    table: u16,
    refusal: RowRefusal,
) -> Result<Refusal, Memory>
    requires { table < length news.now }
    ensures { IfOk result (λ r. Some r ≡ refusals.rows_refusal news.now table refusal) }
{
    let new = &news[usize::from(table)];
    let column = name_at(new.columns.as_slice(), refusal.column);
    refuse(alloc, &new.name, column, Rule::Rows(refusal.rule))
}
