//! The parts of an office that is closed.
ghost use Rattle.std.specs.Prelude.{◌≡◌, Some, false, length};
ghost use Rattle.row_requests.specs.Sound.{AreSound};
ghost use Rattle.office.specs.State.{schema_of};
ghost use Rattle.row_keeper.specs.Shaped.{by};

use crate::machine::Office;
use app_cells::App;
use row_keeper::Keeper;

impl<K: Keeper + Drop> Office<K> {
    /// How many sessions are live.
    pub fn live_sessions(&self) -> usize
        ensures { result ≡ length self.now.state.sessions }
    {
        self.sessions.len()
    }

    /// The app as it is now, and the keeper.
    pub fn into_parts(self) -> (App, K)
        ensures app { result.0 ≡ self.state.app }
        ensures tables { K.told result.1 ≡ self.state.tables }
        ensures marks { K.marks result.1 ≡ self.marks }
        ensures visited { K.visited result.1 ≡ self.visited }
        ensures loan { K.loan result.1 ≡ self.loan }
        ensures idle { K.in_transaction result.1 ≡ false }
        ensures shaped { K.shaped result.1 ≡ by (schema_of result.0) }
        ensures sound { AreSound (schema_of result.0) (K.told result.1) }
    {
        (self.app, self.keeper)
    }
}
