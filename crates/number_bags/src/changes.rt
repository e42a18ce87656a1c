// What changes of counts do to the numbers that are counted, as lists that rise.
ghost use Rattle.std.specs.Prelude.{◌≡◌, ◌<◌, Some, OnErr, OnOk};
ghost use Rattle.std.specs.Bool.{Decides};
ghost use Rattle.number_bags.specs.Bags.{HaveRoom, counted};
ghost use Rattle.number_bags.specs.Entries.{HasRoom, now_at, spread_now, spread_then};
ghost use Rattle.number_bags.specs.Rising.{times, with_number, with_option, without_number};
ghost use Rattle.number_bags.specs.Rising.{without_option};

use crate::counts::Counts;
use crate::number::Number;
use fx_base::Memory;

// In each of these `len` is called for its clause, by which the map's keys are in order.

/// Puts a number among the counts, for which there is room.
fn put(counts: &mut Counts, number: Number) -> Result<(), Memory>
    requires { HasRoom counts.old.touched.items counts.old.entries.entries number }
    ensures ok { OnOk result (spread_now counts.new.entries.entries
        ≡ with_number number (spread_now counts.old.entries.entries)) }
    ensures err { OnErr result (spread_now counts.new.entries.entries
        ≡ spread_now counts.old.entries.entries) }
    ensures then { spread_then counts.new.entries.entries ≡ spread_then counts.old.entries.entries }
{
    if counts.count(&number) == u32::MAX {
        return Err(Memory);
    }
    let _before = counts.entries.len();
    counts.raise(&number);
    let _after = counts.entries.len();
    Ok(())
}

/// Takes a number out of the counts, for which there is room.
fn lower(counts: &mut Counts, number: Number)
    requires room { HasRoom counts.old.touched.items counts.old.entries.entries number }
    requires there { 0 < now_at counts.old.entries.entries number }
    ensures now { spread_now counts.new.entries.entries
        ≡ without_number number (spread_now counts.old.entries.entries) }
    ensures then { spread_then counts.new.entries.entries ≡ spread_then counts.old.entries.entries }
{
    let _before = counts.entries.len();
    counts.lower(&number);
    let _after = counts.entries.len();
}

/// Makes room for a number among the counts.
fn room_for(counts: &mut Counts, number: Number) -> Result<(), Memory>
    ensures now { spread_now counts.new.entries.entries ≡ spread_now counts.old.entries.entries }
    ensures then { spread_then counts.new.entries.entries ≡ spread_then counts.old.entries.entries }
    ensures room { OnOk result (HasRoom counts.new.touched.items counts.new.entries.entries
        number) }
{
    let _before = counts.entries.len();
    let made = counts.make_room(&number);
    let _after = counts.entries.len();
    made
}

/// Makes room for a number among the counts, if it is one.
pub fn make_room(counts: &mut Counts, number: &Option<Number>) -> Result<(), Memory>
    ensures now { spread_now counts.new.entries.entries ≡ spread_now counts.old.entries.entries }
    ensures then { spread_then counts.new.entries.entries ≡ spread_then counts.old.entries.entries }
    ensures room { OnOk result (HaveRoom counts.new number.now) }
{
    match number {
        None => Ok(()),
        Some(number) => room_for(counts, *number),
    }
}

/// Puts a number among the counts, if it is one.
pub fn absorb(counts: &mut Counts, number: &Option<Number>) -> Result<(), Memory>
    ensures ok { OnOk result (spread_now counts.new.entries.entries
        ≡ with_option number.now (spread_now counts.old.entries.entries)) }
    ensures err { OnErr result (spread_now counts.new.entries.entries
        ≡ spread_now counts.old.entries.entries) }
    ensures then { spread_then counts.new.entries.entries ≡ spread_then counts.old.entries.entries }
{
    make_room(counts, number)?;
    match number {
        None => Ok(()),
        Some(number) => put(counts, *number),
    }
}

/// Whether a number is counted.
pub fn is_counted(counts: &Counts, number: Number) -> bool
    ensures counted { Decides result (0 < now_at counts.now.entries.entries number) }
    ensures there { Decides result (0 < times number (spread_now counts.now.entries.entries)) }
{
    let _len = counts.entries.len();
    counts.count(&number) > 0
}

/// Takes a number out of the counts, where it stands there, and says whether it did.
fn take_one(counts: &mut Counts, number: Number) -> Option<Number>
    requires { HasRoom counts.old.touched.items counts.old.entries.entries number }
    ensures now { spread_now counts.new.entries.entries
        ≡ without_number number (spread_now counts.old.entries.entries) }
    ensures then { spread_then counts.new.entries.entries ≡ spread_then counts.old.entries.entries }
    ensures gone { result ≡ counted (Some number) (spread_now counts.old.entries.entries) }
{
    if !is_counted(counts, number) {
        return None;
    }
    lower(counts, number);
    Some(number)
}

/// Takes a number out of the counts, where it stands there, and says which one went.
pub fn take(counts: &mut Counts, number: &Option<Number>) -> Option<Number>
    requires { HaveRoom counts.old number.now }
    ensures now { spread_now counts.new.entries.entries
        ≡ without_option number.now (spread_now counts.old.entries.entries) }
    ensures then { spread_then counts.new.entries.entries ≡ spread_then counts.old.entries.entries }
    ensures gone { result ≡ counted number.now (spread_now counts.old.entries.entries) }
{
    match number {
        None => None,
        Some(number) => take_one(counts, *number),
    }
}

/// Ends a transaction without its changes.
pub fn restore(counts: &mut Counts)
    ensures now { spread_now counts.new.entries.entries ≡ spread_then counts.old.entries.entries }
    ensures then { spread_then counts.new.entries.entries ≡ spread_then counts.old.entries.entries }
{
    let _before = counts.entries.len();
    counts.restore();
    let _after = counts.entries.len();
}

/// Ends a transaction with its changes.
pub fn settle(counts: &mut Counts)
    ensures now { spread_now counts.new.entries.entries ≡ spread_now counts.old.entries.entries }
    ensures then { spread_then counts.new.entries.entries ≡ spread_now counts.old.entries.entries }
{
    let _before = counts.entries.len();
    counts.settle();
    let _after = counts.entries.len();
}
