// Statements that write.

use std::alloc::AllocFailed;

/// A statement that writes, with what it is given. Tables and columns go by number.
#[derive(Clone, Copy)]
pub enum Step<'a> {
    /// Puts a line behind those of its table: the table, the line's number and its body.
    InsertLine(u32, u32, &'a [u8]),
    /// Gives a line another body: the table, the line's number and the body.
    ReplaceLine(u32, u32, &'a [u8]),
    /// Takes a line out: the table and the line's number.
    RemoveLine(u32, u32),
    /// Puts a mark: the table, the column, the key and the number of the row that has it.
    InsertMark(u32, u32, &'a [u8], u32),
    /// Takes a mark out: the table, the column, the key and the number of the row that had it.
    RemoveMark(u32, u32, &'a [u8], u32),
    /// Gives a table another last number: the table and the number.
    ReplaceLast(u32, u32),
}

/// Why no statements could be told.
#[derive(Clone, Copy, Debug)]
pub enum PlanEnd {
    /// Memory ran out.
    Memory,
    /// A line has no key for a column.
    NoKey,
}

impl<T: Drop> From<AllocFailed<T>> for PlanEnd {
    fn from(_: AllocFailed<T>) -> PlanEnd {
        PlanEnd::Memory
    }
}
