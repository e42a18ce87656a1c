// Bags of the columns of a table, one for each.
ghost use Rattle.std.specs.Prelude.{◌≡◌, ◌<◌, ℕ, length, map, slice_get, Some, IfOk, IsSomeAnd};
ghost use Rattle.std.specs.Prelude.{OnErr};
ghost use Rattle.std.specs.Prelude.{OnOk};
ghost use Rattle.number_bags.specs.Bags.{IsReady, now_in, then_in};
ghost use Rattle.number_bags.specs.declared.bags.NumberBag.{NumberBag as Bag};
ghost use Rattle.row_books.specs.Numbers.{AreEmpty, AreReady, ChangesAt, IsCarried, IsChanged};
ghost use Rattle.row_books.specs.Numbers.{IsPrepared, Stands};

use crate::numbers::number_at;
use fx_base::Memory;
use number_bags::{Number, NumberBag};
use std::alloc::Global;

/// Makes a bag ready for a number that goes.
fn prepare_at(bags: &mut [NumberBag], place: usize, out: Option<Number>) -> Result<(), Memory>
    requires { place < length bags.old }
    ensures ok { OnOk result (ChangesAt place (IsPrepared out) bags.old bags.new) }
    ensures err { OnErr result (ChangesAt place Stands bags.old bags.new) }
{
    let bag = &mut bags[place];
    bag.prepare(out)
}

/// Makes each bag ready for a number that goes.
pub fn prepare_all(bags: &mut [NumberBag], out: &[Option<Number>]) -> Result<(), Memory>
    ensures now { map now_in bags.new ≡ map now_in bags.old }
    ensures then { map then_in bags.new ≡ map then_in bags.old }
    ensures ready { OnOk result (AreReady out.now bags.new) }
{
    for place in 0..bags.len() {
        prepare_at(bags, place, number_at(out, place))?;
    }
    Ok(())
}

/// Lets a number go out of a bag, and another come.
fn carry_at(bags: &mut [NumberBag], place: usize, out: Option<Number>, put: Option<Number>)
    requires { IsSomeAnd (slice_get bags.old place) (λ (b : Bag). IsReady b out) }
    ensures { ChangesAt place (IsCarried out put) bags.old bags.new }
{
    let bag = &mut bags[place];
    bag.carry_out(out, put);
}

/// Lets a number go out of each bag, and another come.
pub fn carry_all(bags: &mut [NumberBag], out: &[Option<Number>], put: &[Option<Number>])
    requires { AreReady out.now bags.old }
    ensures now { IsChanged out.now put.now (map now_in bags.old) (map now_in bags.new) }
    ensures then { map then_in bags.new ≡ map then_in bags.old }
{
    for place in 0..bags.len() {
        carry_at(bags, place, number_at(out, place), number_at(put, place));
    }
}

/// Ends a transaction of bags without its changes, and takes no memory.
pub fn restore_all(bags: &mut [NumberBag])
    ensures now { map now_in bags.new ≡ map then_in bags.old }
    ensures then { map then_in bags.new ≡ map then_in bags.old }
{
    for bag in bags.iter_mut() {
        bag.restore();
    }
}

/// Ends a transaction of bags with its changes, and takes no memory.
pub fn settle_all(bags: &mut [NumberBag])
    ensures now { map now_in bags.new ≡ map now_in bags.old }
    ensures then { map then_in bags.new ≡ map now_in bags.old }
{
    for bag in bags.iter_mut() {
        bag.settle();
    }
}

/// So many bags of no numbers.
pub fn empty_bags(alloc: Global, count: usize) -> Result<Vec<NumberBag>, Memory>
    ensures empty { IfOk result (λ v. AreEmpty (map now_in v.items)) }
    ensures many { IfOk result (λ v. length v.items ≡ count) }
{
    let mut bags = Vec::with_capacity(alloc, count)?;
    for _ in 0..count {
        bags.push(NumberBag::new(alloc))?;
    }
    Ok(bags)
}
