//! Files and a sink in memory, which can fail at any call.
ghost use Rattle.std.specs.Prelude.{◌≡◌, IfOk, Some, [], option_copied, option_map, take};
ghost use Rattle.fx_base.specs.Faults.{fault_plan};
ghost use Rattle.fx_cli.specs.Disk.{bytes_named, files_of};

use crate::files::{AskedNames, FileEnd, Files};
use crate::sink::Sink;
use fx_base::plan::FaultPlan;
use fx_base::{Failed, Memory};
use std::alloc::Global;
use std::marker::Model;

/// Files in memory.
#[derive(Drop)]
pub struct MemoryFiles {
    alloc: Global,
    files: Vec<(String, Vec<u8>)>,
    asked: AskedNames,
    plan: FaultPlan,
}

impl Model for MemoryFiles {
    ghost use Rattle.fx_cli.specs.Disk.{Disk, files_of};

    ghost Value = { Disk };

    ghost view = { λ a. record { files = files_of a.files.items; asked = a.asked; plan = a.plan } };
}

impl MemoryFiles {
    /// Files of these names, of which the first of each name counts. The calls of the numbers in
    /// `fails`, counted from 1, fail, and so does each call for a name that is not there.
    pub fn new(alloc: Global, files: Vec<(String, Vec<u8>)>, fails: Vec<u64>) -> MemoryFiles
        ensures files { result.files ≡ files_of files.items }
        ensures asked { result.asked ≡ [] }
        ensures plan { result.plan ≡ fault_plan fails.items }
    {
        MemoryFiles {
            alloc,
            files,
            asked: AskedNames::new(alloc),
            plan: FaultPlan::new(fails),
        }
    }
}

impl Files for MemoryFiles {
    ghost use Rattle.std.specs.Prelude.{Some};
    ghost use Rattle.fx_cli.specs.Disk.{bytes_named};

    ghost told = { λ m. Some (bytes_named m.files) };

    ghost asked = { λ m. m.asked };

    ghost faults = { λ m. m.plan.count };

    fn read(&mut self, name: &str, most: u32) -> Result<Vec<u8>, FileEnd> {
        // Taken before the call is counted, so that want of memory changes nothing.
        let bytes = first_bytes(self.alloc, &self.files, name, most)?;
        self.asked.add(self.alloc, name)?;
        if self.plan.next_fails() {
            return Err(FileEnd::Failed);
        }
        match bytes {
            Some(bytes) => Ok(bytes),
            None => {
                self.plan.raise();
                Err(FileEnd::Failed)
            }
        }
    }
}

/// The first bytes of the first file of this name.
fn first_bytes(
    alloc: Global,
    files: &[(String, Vec<u8>)],
    name: &str,
    most: u32,
) -> Result<Option<Vec<u8>>, Memory>
    ensures { IfOk result (λ found. option_map (λ v. v.items) found
        ≡ option_map (take most) (bytes_named (files_of files.now) name.now)) }
{
    match find_file(files, name) {
        Some(bytes) => {
            let count = bytes.len().min(most as usize);
            Ok(Some(Vec::from_slice(alloc, &bytes[..count])?))
        }
        None => Ok(None),
    }
}

/// The bytes of the first file of this name.
fn find_file<'a>(files: &'a [(String, Vec<u8>)], name: &str) -> Option<&'a [u8]>
    ensures { option_copied result ≡ bytes_named (files_of files.now) name.now }
{
    for (other, bytes) in files {
        if other.as_str() == name {
            return Some(bytes);
        }
    }
    None
}

/// Bytes in memory.
#[derive(Drop)]
pub struct MemorySink {
    written: Vec<u8>,
    plan: FaultPlan,
}

impl Model for MemorySink {
    ghost use Rattle.fx_cli.specs.Disk.{Output};

    ghost Value = { Output };

    ghost view = { λ a. record { written = a.written.items; plan = a.plan } };
}

impl MemorySink {
    /// Nothing is written yet. The calls of the numbers in `fails`, counted from 1, fail.
    pub fn new(alloc: Global, fails: Vec<u64>) -> MemorySink
        ensures written { result.written ≡ [] }
        ensures plan { result.plan ≡ fault_plan fails.items }
    {
        MemorySink {
            written: Vec::new(alloc),
            plan: FaultPlan::new(fails),
        }
    }

    /// What was written.
    pub fn written(&self) -> &[u8]
        ensures { result.now ≡ self.now.written }
    {
        &self.written
    }
}

impl Sink for MemorySink {
    ghost told = { λ m. Some m.written };

    ghost faults = { λ m. m.plan.count };

    fn write(&mut self, piece: &[u8]) -> Result<usize, Failed> {
        if self.plan.next_fails() {
            return Err(Failed);
        }
        match self.written.extend_from_slice(piece) {
            Ok(()) => Ok(piece.len()),
            Err(_) => {
                self.plan.raise();
                Err(Failed)
            }
        }
    }
}
