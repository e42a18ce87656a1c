//! What doors in memory keep of a conversation.
ghost use Rattle.std.specs.Prelude.{◌≡◌, ◌<◌, vec_len};
ghost use Rattle.std.specs.Bool.{OnFalse, OnTrue};
ghost use Rattle.app_wire.specs.Doorway.{fresh_talk, with_hang_up, with_last, with_taken};
ghost use Rattle.app_wire.specs.Doorway.{with_written};

use std::alloc::Global;
use std::marker::Model;

/// A conversation that has become the present one: what was read of it, what was written to it, and
/// how often it was hung up.
#[derive(Drop)]
pub(crate) struct MemoryTalk {
    taken: Vec<u8>,
    written: Vec<u8>,
    hang_ups: u64,
}

impl Model for MemoryTalk {
    ghost use Rattle.app_wire.specs.Doorway.{Talk};

    ghost Value = { Talk };

    ghost view = { λ t. record {
      taken = t.taken.items;
      written = t.written.items;
      hang_ups = t.hang_ups;
    } };
}

impl MemoryTalk {
    /// Nothing was done yet. It takes no memory.
    pub(crate) fn new(alloc: Global) -> MemoryTalk
        ensures { result ≡ fresh_talk }
    {
        MemoryTalk {
            taken: Vec::new(alloc),
            written: Vec::new(alloc),
            hang_ups: 0,
        }
    }

    /// What was written to it.
    pub(crate) fn output(&self) -> &[u8]
        ensures { result.now ≡ self.now.written }
    {
        &self.written
    }

    /// These bytes were read. It says no where memory runs out.
    pub(crate) fn take(&mut self, bytes: &[u8]) -> bool
        ensures yes { OnTrue result (self.new ≡ with_taken bytes.now self.old) }
        ensures no { OnFalse result (self.new ≡ self.old) }
    {
        self.taken.extend_from_slice(bytes).is_ok()
    }

    /// These bytes were written. It says no where memory runs out.
    pub(crate) fn write(&mut self, bytes: &[u8]) -> bool
        ensures yes { OnTrue result (self.new ≡ with_written bytes.now self.old) }
        ensures no { OnFalse result (self.new ≡ self.old) }
    {
        self.written.extend_from_slice(bytes).is_ok()
    }

    /// It was hung up.
    pub(crate) fn hang_up(&mut self)
        ensures { self.new ≡ with_hang_up self.old }
    {
        self.hang_ups = self.hang_ups.saturating_add(1);
    }
}

/// These bytes were read of the last conversation, if there is one. It says no where memory runs
/// out.
pub(crate) fn take_of_last(talks: &mut [MemoryTalk], bytes: &[u8]) -> bool
    ensures yes { OnTrue result (talks.new ≡ with_last (with_taken bytes.now) talks.old) }
    ensures no { OnFalse result (talks.new ≡ talks.old) }
{
    let count = talks.len();
    count == 0 || talks[count - 1].take(bytes)
}

/// These bytes were written to the last conversation. It says no where there is none, and where
/// memory runs out.
pub(crate) fn write_to_last(talks: &mut [MemoryTalk], bytes: &[u8]) -> bool
    ensures yes { OnTrue result (talks.new ≡ with_last (with_written bytes.now) talks.old) }
    ensures no { OnFalse result (talks.new ≡ talks.old) }
{
    let count = talks.len();
    count > 0 && talks[count - 1].write(bytes)
}

/// The last conversation, if there is one, was hung up.
pub(crate) fn hang_up_last(talks: &mut [MemoryTalk])
    ensures { talks.new ≡ with_last with_hang_up talks.old }
{
    let count = talks.len();
    if count > 0 {
        talks[count - 1].hang_up();
    }
}
