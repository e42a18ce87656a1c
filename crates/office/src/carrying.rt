//! Sessions go over to an app that is edited, or that replaces theirs.
ghost use Rattle.std.specs.Prelude.{◌≡◌, ◌<◌, ◌^◌, IfOk, OnErr, length, map};
ghost use Rattle.office.specs.DeskEdits.{all_carried};
ghost use Rattle.office.specs.Replacing.{all_over};
ghost use Rattle.office.specs.Rooms.{HaveNoRoom, HaveRoom, with_room, without_room};

use fx_base::Memory;
use fx_core::Names;
use numbered_requests::Named;
use session_state::Session;

/// Makes room beside each session for what the names want, as far as there is memory.
fn add_room(sessions: &mut [Named<Session>], names: &Names) -> Result<(), Memory>
    ensures made { IfOk result (λ _. sessions.new ≡ map (with_room names.now) sessions.old) }
    ensures others { map without_room sessions.new ≡ map without_room sessions.old }
{
    for session in sessions.iter_mut() {
        session.it.make_room(names)?;
    }
    Ok(())
}

/// Gives the room beside each session back.
pub(crate) fn drop_room(sessions: &mut [Named<Session>])
    ensures { sessions.new ≡ map without_room sessions.old }
{
    for session in sessions.iter_mut() {
        session.it.drop_room();
    }
}

/// Makes room beside each session for what the names want; or there is no memory, and all is as
/// before.
pub(crate) fn make_room(sessions: &mut [Named<Session>], names: &Names) -> Result<(), Memory>
    requires { HaveNoRoom sessions.old }
    ensures made { IfOk result (λ _. sessions.new ≡ map (with_room names.now) sessions.old) }
    ensures stopped { OnErr result (sessions.new ≡ sessions.old) }
{
    match add_room(sessions, names) {
        Ok(()) => Ok(()),
        Err(Memory) => {
            drop_room(sessions);
            Err(Memory)
        }
    }
}

/// Each session goes over to an edited app. It takes no memory.
pub(crate) fn carry(sessions: &mut [Named<Session>], old: &Names, new: &Names)
    requires { HaveRoom new.now sessions.old }
    ensures { sessions.new ≡ all_carried old.now new.now sessions.old }
{
    for session in sessions.iter_mut() {
        session.it.carry(old, new);
    }
}

/// Each session goes over to an app that replaces the old one. It takes no memory.
pub(crate) fn carry_over(sessions: &mut [Named<Session>], old: &Names, new: &Names)
    requires room { HaveRoom new.now sessions.old }
    requires screens { length new.now.screens < 2 ^ 32 }
    ensures { sessions.new ≡ all_over old.now new.now sessions.old }
{
    for session in sessions.iter_mut() {
        session.it.carry_over(old, new);
    }
}
