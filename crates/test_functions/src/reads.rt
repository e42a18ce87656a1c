//! What a typed tree reads.

use crate::page::Page;
use fx_base::Memory;
use fx_core::functions::Fun;
use fx_core::make_core::{call, read};
use fx_core::sources::Source;
use fx_core::trees::{Core, CoreArgs};
use std::alloc::Global;

pub fn write(page: &mut Page) {
    page.add("# What a tree reads, each source once and in their order");
    match sources(page.alloc) {
        Ok(sources) => {
            for source in &sources {
                page.add_made(format!(in page.alloc; "{source:?}"));
            }
        }
        Err(Memory) => page.miss(),
    }
}

fn sources(alloc: Global) -> Result<Vec<Source>, Memory> {
    tree(alloc)?.reads(alloc)
}

// A copy of a tree that reads the day, the second table, and the day once more.
fn tree(alloc: Global) -> Result<Core, Memory> {
    let mut parts = CoreArgs::new(alloc);
    add_reads(&mut parts)?;
    call(Fun::Concatenate, parts).copy(alloc)
}

fn add_reads(parts: &mut CoreArgs) -> Result<(), Memory> {
    parts.push(read(Source::Today))?;
    parts.push(read(Source::Table(1)))?;
    parts.push(read(Source::Today))
}
