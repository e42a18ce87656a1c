//! A keeper's tables move to another app's schema.
ghost use Rattle.std.specs.Prelude.{◌≡◌, None, IfOk, OnErr, false, true};
ghost use Rattle.fx_base.specs.Telling.{Stays};
ghost use Rattle.fx_core.specs.Lawful.{IsLawfulSchema};
ghost use Rattle.row_keeper.specs.Kept.{columns_shaped};
ghost use Rattle.row_keeper.specs.MovedTables.{AreMoves, IsReshaped, Reshapes};
ghost use Rattle.row_keeper.specs.Over.{Becomes, HasCause};
ghost use Rattle.row_keeper.specs.Shaped.{by, shaped_so, steady};
ghost use Rattle.app_moves.specs.Fitting.{MovedTablesFit};
ghost use Rattle.app_moves.specs.Places.{table_moves as moves_by_places};
ghost use Rattle.app_moves.specs.Refusals.{moves_refusal};

use crate::moves::Move;
use crate::places::table_moves;
use fx_base::Memory;
use fx_core::Schema;
use row_keeper::{Keeper, KeeperEnd, Reshaped, TableMove};
use std::alloc::Global;

/// Moves a keeper's tables from one schema to another in one transaction. Where a row breaks a rule
/// that is answered, and as where it stops, all is as before. The moves are ones that aren't
/// refused.
pub fn move_tables<K: Keeper>(
    alloc: Global,
    keeper: &mut K,
    olds: &Schema,
    news: &Schema,
    moves: &[Move],
) -> Result<Reshaped, KeeperEnd>
    requires idle { K.in_transaction keeper.old ≡ false }
    requires shaped { K.shaped keeper.old ≡ by olds.now }
    requires lawful { IsLawfulSchema olds.now × IsLawfulSchema news.now }
    requires fine { moves_refusal olds.now.tables news.now.tables moves.now ≡ None }
    ensures done { IfOk result (λ r. Becomes K.Keeper keeper.old keeper.new (Reshapes news.now
        (moves_by_places olds.now.tables moves.now news.now.tables) r)) }
    ensures sound { IfOk result (IsReshaped (columns_shaped news.now.tables)) }
    ensures shaped { IfOk result (λ r. K.shaped keeper.new
        ≡ steady (shaped_so news.now r (by olds.now))) }
    ensures stopped { OnErr result (Becomes K.Keeper keeper.old keeper.new Stays) }
    ensures stays { OnErr result (K.shaped keeper.new ≡ K.shaped keeper.old) }
    ensures cause { HasCause K.Keeper keeper.old keeper.new result }
    ensures idle { K.in_transaction keeper.new ≡ false }
    ensures loan { K.loan keeper.new ≡ K.loan keeper.old }
{
    match table_moves(alloc, olds, news, moves) {
        Ok(places) => transact(keeper, olds, news, &places),
        Err(Memory) => Err(KeeperEnd::Memory),
    }
}

/// The same by places.
fn transact<K: Keeper>(
    keeper: &mut K,
    olds: &Schema,
    news: &Schema,
    moves: &[TableMove],
) -> Result<Reshaped, KeeperEnd>
    requires idle { K.in_transaction keeper.old ≡ false }
    requires shaped { K.shaped keeper.old ≡ by olds.now }
    requires lawful { IsLawfulSchema news.now }
    requires moves { AreMoves olds.now.tables news.now.tables moves.now }
    ensures done { IfOk result (λ r. Becomes K.Keeper keeper.old keeper.new
        (Reshapes news.now moves.now r)) }
    ensures sound { IfOk result (IsReshaped (columns_shaped news.now.tables)) }
    ensures shaped { IfOk result (λ r. K.shaped keeper.new
        ≡ steady (shaped_so news.now r (by olds.now))) }
    ensures stopped { OnErr result (Becomes K.Keeper keeper.old keeper.new Stays) }
    ensures stays { OnErr result (K.shaped keeper.new ≡ K.shaped keeper.old) }
    ensures cause { HasCause K.Keeper keeper.old keeper.new result }
    ensures idle { K.in_transaction keeper.new ≡ false }
    ensures loan { K.loan keeper.new ≡ K.loan keeper.old }
{
    match keeper.begin() {
        Ok(()) => {}
        Err(end) => return Err(end),
    }
    match keeper.reshape(news, moves) {
        Ok(Reshaped::Done) => match keeper.commit() {
            Ok(()) => Ok(Reshaped::Done),
            Err(end) => Err(end),
        },
        Ok(Reshaped::Broken(table, refusal)) => {
            keeper.back();
            Ok(Reshaped::Broken(table, refusal))
        }
        Err(end) => {
            keeper.back();
            Err(end)
        }
    }
}

/// A law, and no work: tables that fit a schema fit the other one once they have moved to it.
pub fn moved_tables_fit()
    ensures { MovedTablesFit }
{}
