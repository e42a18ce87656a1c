//! The system's files and its standard output, of which no content is told.
ghost use Rattle.std.specs.Prelude.{◌≡◌, ◌≤◌, [], IfOk, IfSome, None, take, vec_len};

use crate::files::{AskedNames, FileEnd, Files};
use crate::sink::Sink;
use fx_base::Failed;
use std::alloc::Global;
use std::io::{self, ErrorKind, Read, Write};
use std::marker::Model;
use std::rt::Files as SystemFiles;

/// The files of the system.
#[derive(Drop)]
pub struct RealFiles<'a, R> {
    rt: &'a R,
    asked: AskedNames,
    faults: u64,
}

impl<'a, R> Model for RealFiles<'a, R> {
    ghost use Rattle.fx_cli.specs.Disk.{Tally};

    ghost Value = { Tally };

    ghost view = { λ a. record { asked = a.asked; faults = a.faults } };
}

impl<'a, R: SystemFiles + AllocGlobal> RealFiles<'a, R> {
    /// No name was asked for yet.
    pub fn new(rt: &'a R) -> RealFiles<'a, R>
        ensures { result ≡ record { asked = []; faults = 0 } }
    {
        RealFiles {
            rt,
            asked: AskedNames::new(rt.alloc()),
            faults: 0,
        }
    }
}

impl<'a, R: SystemFiles + AllocGlobal> Files for RealFiles<'a, R> {
    ghost told = { λ _. None };

    ghost asked = { λ s. s.asked };

    ghost faults = { λ s. s.faults };

    fn read(&mut self, name: &str, most: u32) -> Result<Vec<u8>, FileEnd> {
        let read = read_file(self.rt, name, most);
        if let Err(error) = &read
            && error.kind() == ErrorKind::OutOfMemory
        {
            return Err(FileEnd::Memory);
        }
        self.asked.add(self.rt.alloc(), name)?;
        match read {
            Ok(bytes) => Ok(bytes),
            Err(_) => {
                self.faults = self.faults.saturating_add(1);
                Err(FileEnd::Failed)
            }
        }
    }
}

fn read_file<R: SystemFiles + AllocGlobal>(rt: &R, name: &str, most: u32) -> io::Result<Vec<u8>>
    ensures { IfOk result (λ v. vec_len v ≤ most) }
{
    read_first(rt.alloc(), std::fs::open(rt, name)?, most)
}

/// The first `most` bytes that are left, or all where there are no more.
fn read_first<R: Read + Drop>(alloc: Global, reader: R, most: u32) -> io::Result<Vec<u8>>
    ensures bytes { IfOk result (λ v. IfSome (R.remaining reader)
        (λ left. v.items ≡ take most left)) }
    ensures short { IfOk result (λ v. vec_len v ≤ most) }
{
    let mut bytes = Vec::new(alloc);
    reader.take(u64::from(most)).read_to_end(&mut bytes)?;
    // A reader that tells nothing may break its word.
    bytes.truncate(most as usize);
    Ok(bytes)
}

/// A writer, such as standard output.
#[derive(Drop)]
pub struct StdSink<W> {
    output: W,
    faults: u64,
}

impl<W> Model for StdSink<W> {
    ghost use Rattle.std.specs.Prelude.{ℕ};

    ghost Value = { ℕ };

    ghost view = { λ a. a.faults };
}

impl<W: Write> StdSink<W> {
    /// Nothing is written yet.
    pub fn new(output: W) -> StdSink<W>
        ensures { result ≡ 0 }
    {
        StdSink { output, faults: 0 }
    }
}

impl<W: Write> Sink for StdSink<W> {
    ghost told = { λ _. None };

    ghost faults = { λ count. count };

    fn write(&mut self, piece: &[u8]) -> Result<usize, Failed> {
        match self.output.write(piece) {
            // A write of nothing counts as a fault, so that `write_all` ends.
            Ok(count) if count > 0 || piece.is_empty() => Ok(count),
            _ => {
                self.faults = self.faults.saturating_add(1);
                Err(Failed)
            }
        }
    }
}
