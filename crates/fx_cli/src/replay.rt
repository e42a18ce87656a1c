//! Conversations of doors, one after another.
ghost use Rattle.std.specs.Prelude.{◌≡◌, ◌≢◌, ◌≤◌, IfOk, IfSome, None, Ok, OnErr, Some, false};
ghost use Rattle.fx_base.specs.Faults.{Rose};
ghost use Rattle.fx_base.specs.Silence.{IsLater};
ghost use Rattle.fx_base.specs.Telling.{Stays, Tells};
ghost use Rattle.app_wire.specs.Doorway.{NextComes};
ghost use Rattle.fx_cli.specs.Conversations.{HoldsNext, Replayed, Serves, StopsAt, office_at};
ghost use Rattle.fx_cli.specs.Conversations.{service_at};
ghost use Rattle.fx_cli.specs.declared.replay.ReplayEnd.TheVariants.{Fault};

use crate::words::Service;
use app_wire::clock::Clock;
use app_wire::doors::Doors;
use fx_base::Failed;
use office::{ConvEnd, Office, Steps};
use row_keeper::Keeper;
use std::sync::ledger::Ledger;

/// How conversations ended.
#[derive(Clone, Copy, Debug, PartialEq, Eq)]
pub enum ReplayEnd {
    /// No conversation is left, or as many were held as a service on a port takes.
    Done,
    /// By a counted fault of the doors, where conversations have more than one reply.
    Fault,
    /// After the most requests of one conversation, or the most conversations of a replay.
    Full,
}

/// Answers the conversations of the doors as a service wants it, which listens on its port first,
/// if it has one.
pub fn hold_all<K: Keeper + Drop, D: Doors, C: Clock, L: Ledger>(
    office: &mut Office<K>,
    service: Service<'_>,
    doors: &mut D,
    clock: &mut C,
    steps: &mut Steps<L>,
) -> ReplayEnd
    ensures served { Serves service.entry.port service.entry.most
        (service_at D.Doors C.Clock (office_at office.old) doors.old clock.old)
        (service_at D.Doors C.Clock (office_at office.new) doors.new clock.new) result }
    ensures cause { result ≡ ReplayEnd.Fault → Rose (D.faults doors.old) (D.faults doors.new) }
    ensures later { D.faults doors.old ≤ D.faults doors.new }
    ensures marks { IsLater office.old.marks office.new.marks }
    ensures loan { office.new.loan ≡ office.old.loan }
{
    match service.port {
        None => replay(office, doors, clock, steps, service.most, ReplayEnd::Full),
        Some(port) => hold_on_port(office, port, service.most, doors, clock, steps),
    }
}

/// Listens on a port, and answers at most so many conversations.
fn hold_on_port<K: Keeper + Drop, D: Doors, C: Clock, L: Ledger>(
    office: &mut Office<K>,
    port: u16,
    most: u32,
    doors: &mut D,
    clock: &mut C,
    steps: &mut Steps<L>,
) -> ReplayEnd
    ensures served { Serves (Some port) most
        (service_at D.Doors C.Clock (office_at office.old) doors.old clock.old)
        (service_at D.Doors C.Clock (office_at office.new) doors.new clock.new) result }
    ensures cause { result ≡ ReplayEnd.Fault → Rose (D.faults doors.old) (D.faults doors.new) }
    ensures later { D.faults doors.old ≤ D.faults doors.new }
    ensures marks { IsLater office.old.marks office.new.marks }
    ensures loan { office.new.loan ≡ office.old.loan }
{
    match doors.listen(port) {
        Ok(()) => replay(office, doors, clock, steps, most, ReplayEnd::Done),
        Err(Failed) => ReplayEnd::Fault,
    }
}

/// Answers conversations of the doors, at most so many, and hangs up each. Where it took the most,
/// it ends so.
pub fn replay<K: Keeper + Drop, D: Doors, C: Clock, L: Ledger>(
    office: &mut Office<K>,
    doors: &mut D,
    clock: &mut C,
    steps: &mut Steps<L>,
    most: u32,
    at_most: ReplayEnd,
) -> ReplayEnd
    requires { at_most ≢ Fault }
    ensures replayed { Replayed most at_most
        (service_at D.Doors C.Clock (office_at office.old) doors.old clock.old)
        (service_at D.Doors C.Clock (office_at office.new) doors.new clock.new) result }
    ensures cause { result ≡ ReplayEnd.Fault → Rose (D.faults doors.old) (D.faults doors.new) }
    ensures later { D.faults doors.old ≤ D.faults doors.new }
    ensures marks { IsLater office.old.marks office.new.marks }
    ensures loan { office.new.loan ≡ office.old.loan }
    ensures single { D.single doors.new ≡ D.single doors.old }
{
    for held in 0..most {
        match hold_next(office, doors, clock, steps) {
            Err(Failed) => return ReplayEnd::Fault,
            Ok(None) => return ReplayEnd::Done,
            Ok(Some(end)) => {
                if let Some(stop) = stop_at(end, doors.one()) {
                    return stop;
                }
            }
        }
    }
    at_most
}

/// How a conversation that ended so ends a replay, if it does. `one` says whether each has one
/// reply.
fn stop_at(end: ConvEnd, one: bool) -> Option<ReplayEnd>
    ensures { StopsAt end one result }
{
    match end {
        ConvEnd::Ended => None,
        ConvEnd::Faulted if one => None,
        ConvEnd::Faulted => Some(ReplayEnd::Fault),
        ConvEnd::Full => Some(ReplayEnd::Full),
    }
}

/// Answers the next conversation, if one is left, and hangs up. It says how that one ended.
fn hold_next<K: Keeper + Drop, D: Doors, C: Clock, L: Ledger>(
    office: &mut Office<K>,
    doors: &mut D,
    clock: &mut C,
    steps: &mut Steps<L>,
) -> Result<Option<ConvEnd>, Failed>
    ensures held { IfOk result (λ turn. IfSome turn
        (λ end. HoldsNext end
        (service_at D.Doors C.Clock (office_at office.old) doors.old clock.old)
        (service_at D.Doors C.Clock (office_at office.new) doors.new clock.new))) }
    ensures none { result ≡ Ok None → Tells (NextComes false) (D.told doors.old) (D.told doors.new) }
    ensures same { result ≡ Ok None → (clock.new ≡ clock.old) × (office.new ≡ office.old) }
    ensures failed { OnErr result (Tells Stays (D.told doors.old) (D.told doors.new)
        × (clock.new ≡ clock.old) × (office.new ≡ office.old)) }
    ensures cause { OnErr result (Rose (D.faults doors.old) (D.faults doors.new)) }
    ensures later { D.faults doors.old ≤ D.faults doors.new }
    ensures marks { IsLater office.old.marks office.new.marks }
    ensures loan { office.new.loan ≡ office.old.loan }
    ensures single { D.single doors.new ≡ D.single doors.old }
{
    if !doors.next()? {
        return Ok(None);
    }
    let end = office.converse(doors, clock, steps);
    doors.hang_up();
    Ok(Some(end))
}
