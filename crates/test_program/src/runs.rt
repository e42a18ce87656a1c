//! Runs in memory.
ghost use Rattle.std.specs.Prelude.{◌≡◌, ◌<◌, IfOk, false};

use crate::asked::AskedKeeper;
use crate::pieces::PieceSink;
use crate::row::Row;
use app_wire::clock::ListClock;
use app_wire::doors::Doors;
use app_wire::memory::MemoryDoors;
use fx_base::InOrder;
use fx_base::plan::FaultPlan;
use fx_cli::memory::{MemoryFiles, MemorySink};
use fx_cli::{Steps, run};
use fx_core::{Schema, TableShape};
use fx_types::Words;
use row_keeper::{Keeper, KeeperEnd, MemoryKeeper};
use std::alloc::{AllocError, Global};
use std::marker::Brand;
use std::sync::ledger::{Blank, Ledger};

/// How a run ended, what it said, what it answered to each conversation that came, how many rows
/// the keeper visited, where these are counted, and what it was asked about rows, where this is
/// written down.
#[derive(Drop)]
pub struct Ended {
    pub status: u8,
    pub said: Vec<u8>,
    pub answered: Vec<Vec<u8>>,
    pub visited: Option<u64>,
    pub asked: Option<String>,
}

/// A run in memory.
pub fn run_row(alloc: Global, row: &Row) -> Result<Ended, AllocError> {
    let mut doors = doors(alloc, row)?;
    let mut out = PieceSink::new(
        MemorySink::new(alloc, Vec::from_slice(alloc, &row.sink_fails)?),
        row.piece,
    );
    let mut files = files(alloc, row)?;
    let mut keeper = AskedKeeper::new(alloc, keeper(alloc, row)?);
    let status = status::<MemoryDoors, Brand>(
        alloc,
        row,
        &mut doors,
        &mut keeper,
        &mut files,
        &mut out,
        ListClock::new(Vec::from_slice(alloc, &row.moments)?),
        Blank::new(1),
    );
    Ok(Ended {
        status,
        said: Vec::from_slice(alloc, out.written())?,
        answered: answers(alloc, &doors, row.earlier.len())?,
        visited: row.counts_visits.then_some(keeper.keeper.visits()),
        asked: row.writes_asked.then_some(keeper.questions(alloc)?),
    })
}

/// A run over other doors and rows in memory: its status, and what it said.
pub fn run_over<D: Doors>(
    alloc: Global,
    row: &Row,
    doors: &mut D,
) -> Result<(u8, Vec<u8>), AllocError> {
    let mut out = PieceSink::new(
        MemorySink::new(alloc, Vec::from_slice(alloc, &row.sink_fails)?),
        row.piece,
    );
    let mut files = files(alloc, row)?;
    let mut keeper = AskedKeeper::new(alloc, keeper(alloc, row)?);
    let status = status::<D, Brand>(
        alloc,
        row,
        doors,
        &mut keeper,
        &mut files,
        &mut out,
        ListClock::new(Vec::from_slice(alloc, &row.moments)?),
        Blank::new(1),
    );
    Ok((status, Vec::from_slice(alloc, out.written())?))
}

/// What was written to each conversation that came, up to the one of this number, counted from 0.
fn answers(alloc: Global, doors: &MemoryDoors, last: usize) -> Result<Vec<Vec<u8>>, AllocError> {
    let mut answered = Vec::new(alloc);
    for conversation in 0..=last {
        if let Some(bytes) = doors.written(conversation) {
            answered.push(Vec::from_slice(alloc, bytes)?)?;
        }
    }
    Ok(answered)
}

/// The status that a run ends with.
fn status<D: Doors, L: Ledger>(
    alloc: Global,
    row: &Row,
    doors: &mut D,
    keeper: &mut AskedKeeper<MemoryKeeper>,
    files: &mut MemoryFiles,
    out: &mut PieceSink,
    mut clock: ListClock,
    blank: Blank,
) -> u8
    requires name { blank.name ≡ L.name }
    requires parts { blank.parts ≡ L.parts }
    requires some { 0 < L.parts }
    requires idle { keeper.old.keeper.store.is_begun ≡ false }
{
    let mut steps = Steps::<L>::new(blank);
    run(
        alloc, &row.words, doors, keeper, files, out, &mut clock, &mut steps,
    )
    .0
}

/// The keeper of a row. Where it has been shaped, that took its first two calls, or four.
fn keeper(alloc: Global, row: &Row) -> Result<MemoryKeeper, AllocError>
    ensures { IfOk result (λ keeper. keeper.store.is_begun ≡ false) }
{
    let fails = Vec::from_slice(alloc, &row.keeper_fails)?;
    let mut keeper = MemoryKeeper::new(alloc, FaultPlan::new(fails));
    if row.kept.is_empty() {
        return Ok(keeper);
    }
    match shape_by(alloc, &mut keeper, &row.kept, row.last) {
        Ok(()) => Ok(keeper),
        Err(_) => Err(AllocError),
    }
}

/// Shapes a keeper by one table of a name, without columns, which gave numbers up to the last.
fn shape_by(
    alloc: Global,
    keeper: &mut MemoryKeeper,
    table: &str,
    last: u32,
) -> Result<(), KeeperEnd>
    requires { keeper.old.store.is_begun ≡ false }
    ensures { keeper.new.store.is_begun ≡ false }
{
    let name = Words::of(alloc, table)?;
    let columns = InOrder::new(alloc);
    let mut tables = InOrder::new(alloc);
    tables.push(TableShape { name, columns })?;
    keeper.attach("")?;
    if keeper.shape(&Schema { tables })?.is_some() || last == 0 {
        return Ok(());
    }
    keeper.begin()?;
    keeper.skip_to(last);
    keeper.commit()
}

/// The one file of a row.
fn files(alloc: Global, row: &Row) -> Result<MemoryFiles, AllocError> {
    let mut files = Vec::new(alloc);
    files.push((row.file.clone()?, Vec::from_slice(alloc, &row.bytes)?))?;
    let fails = Vec::from_slice(alloc, &row.file_fails)?;
    Ok(MemoryFiles::new(alloc, files, fails))
}

/// The conversations of a row.
fn doors(alloc: Global, row: &Row) -> Result<MemoryDoors, AllocError> {
    let mut conversations = Vec::new(alloc);
    for earlier in &row.earlier {
        conversations.push(Vec::from_slice(alloc, earlier)?)?;
    }
    conversations.push(Vec::from_slice(alloc, &row.stream)?)?;
    let fails = Vec::from_slice(alloc, &row.door_fails)?;
    let piece = row.piece.max(1);
    Ok(MemoryDoors::new(alloc, conversations, piece, row.one, fails))
}
