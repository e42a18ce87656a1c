//! Where a run reads.
ghost use Rattle.fx_cli.specs.declared.files.FileEnd.TheVariants.{Memory};
ghost use Rattle.std.specs.Prelude.{◌≡◌, ◌++◌, ◌∷◌, [], ◌≤◌, ℕ, IfOk, List, OnErr, OnOk, Option};
ghost use Rattle.std.specs.Prelude.{map, string_bytes, vec_len};
ghost use Rattle.fx_cli.specs.Telling.{AreFirstBytes, Contents, CountsFault, asked_after};

use fx_base::Memory;
use std::alloc::Global;
use std::marker::Model;

/// Why a file was not read.
#[derive(Clone, Copy, Debug, PartialEq, Eq)]
pub enum FileEnd {
    /// Memory ran out, and nothing has changed.
    Memory,
    /// The file could not be read, and a fault is counted.
    Failed,
}

impl From<Memory> for FileEnd {
    ghost from_gives = { λ _ e. e ≡ Memory };

    fn from(_error: Memory) -> FileEnd {
        FileEnd::Memory
    }
}

/// Files by name, which may tell what is in them. They always tell which names they were asked for:
/// where memory runs out this list stays as it was, and each other call adds its name.
pub trait Files {
    // The bytes of each name, where they are told.
    ghost told: { Self → Option Contents };

    // The names asked for, in order.
    ghost asked: { Self → List (List ℕ) };

    // The faults so far.
    ghost faults: { Self → ℕ };

    /// The first `most` bytes of a file, or all where it has no more.
    fn read(&mut self, name: &str, most: u32) -> Result<Vec<u8>, FileEnd>
        ensures bytes { IfOk result (λ v. AreFirstBytes (told self.old) name.now most v.items) }
        ensures short { IfOk result (λ v. vec_len v ≤ most) }
        ensures asked { asked self.new ≡ asked_after result (asked self.old) name.now }
        ensures faults { CountsFault result (faults self.old) (faults self.new) }
        ensures later { faults self.old ≤ faults self.new }
        ensures told { told self.new ≡ told self.old };
}

/// The names that files were asked for, in order.
#[derive(Drop)]
pub(crate) struct AskedNames {
    names: Vec<String>,
}

impl Model for AskedNames {
    ghost use Rattle.std.specs.Prelude.{ℕ, List, map, string_bytes};

    ghost Value = { List (List ℕ) };

    ghost view = { λ a. map string_bytes a.names.items };
}

impl AskedNames {
    pub(crate) fn new(alloc: Global) -> AskedNames
        ensures { result ≡ [] }
    {
        AskedNames {
            names: Vec::new(alloc),
        }
    }

    /// One name more.
    pub(crate) fn add(&mut self, alloc: Global, name: &str) -> Result<(), Memory>
        ensures ok { OnOk result (self.new ≡ self.old ++ name.now ∷ []) }
        ensures err { OnErr result (self.new ≡ self.old) }
    {
        let name = String::from_str(alloc, name)?;
        self.names.push(name)?;
        Ok(())
    }
}
