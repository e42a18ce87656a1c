//! A file that is viewed, with its name.

use crate::row::Row;
use std::alloc::{AllocError, Global};

/// The moment of all views, in seconds since 1970-01-01.
const MOMENT: &str = "1704067200";

/// A file as it is read, line by line, with the run that views it.
#[derive(Drop)]
pub struct Sheet {
    /// The line that names it, or nothing before the first one.
    pub name: String,
    /// The run of `view`, over the file's text so far.
    pub row: Row,
    has_line: bool,
}

impl Sheet {
    /// No file yet.
    pub fn new(alloc: Global) -> Sheet {
        Sheet {
            name: String::new(alloc),
            row: Row::new(alloc),
            has_line: false,
        }
    }

    /// Begins an empty file of this name.
    pub fn begin(&mut self, alloc: Global, name: &str) -> Result<(), AllocError> {
        self.name.clear();
        self.name.push_str(name)?;
        self.has_line = false;
        self.row.set(alloc, "file", "f")?;
        self.row.set(alloc, "words", "view f")?;
        self.row.set(alloc, "moments", MOMENT)?;
        Ok(())
    }

    /// Adds a line, behind a line feed where it isn't the first.
    pub fn add_line(&mut self, line: &str) -> Result<(), AllocError> {
        if self.has_line {
            self.row.bytes.push(b'\n')?;
        }
        self.has_line = true;
        self.row.bytes.extend_from_slice(line.as_bytes())
    }
}
