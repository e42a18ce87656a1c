// Why a batch is refused.
ghost use Rattle.std.specs.Prelude.{◌≡◌, []};
ghost use Rattle.row_files.specs.Ends.{IfRefused};

use fx_base::Memory;
use fx_types::Words;
use std::alloc::Global;

/// The rules of batches.
#[derive(Clone, Copy, PartialEq, Eq)]
pub enum ImportRule {
    /// A record has as many fields as the header.
    Csv,
    /// There is a header, which names columns of the table, each once, and the key.
    Header,
    /// At most 1,000 records stand behind the header.
    Long,
    /// Each field spells a value of its column's type.
    Kind,
    /// The key of a line isn't blank.
    Blank,
    /// No line before has its key.
    Twice,
}

/// Why there is no batch.
#[derive(Drop)]
pub enum BatchEnd {
    /// A record, by its number, where the header has 0, and a column, `""` where the rule is one of
    /// whole records, break a rule.
    Refused(u32, Words, ImportRule),
    /// Memory ran out, or the number of a record passes `u32`.
    Memory,
}

impl From<Memory> for BatchEnd {
    ghost use Rattle.std.specs.Prelude.{◌≡◌};
    ghost use Rattle.row_files.specs.declared.ends.BatchEnd.TheVariants.{Memory as OutOfMemory};

    ghost from_gives = { λ _ e. e ≡ OutOfMemory };

    fn from(_error: Memory) -> BatchEnd {
        BatchEnd::Memory
    }
}

/// The refusal of a record by its number, for a column.
pub(crate) fn refusal(alloc: Global, at: usize, column: &Words, rule: ImportRule) -> BatchEnd
    ensures { IfRefused result (λ e. e ≡ BatchEnd.Refused at column.now rule) }
{
    match column.copy(alloc) {
        Ok(column) => numbered(at, column, rule),
        Err(Memory) => BatchEnd::Memory,
    }
}

/// The refusal of a whole record by its number.
pub(crate) fn refusal_of_record(alloc: Global, at: usize, rule: ImportRule) -> BatchEnd
    ensures { IfRefused result (λ e. e ≡ BatchEnd.Refused at [] rule) }
{
    match Words::of(alloc, "") {
        Ok(column) => numbered(at, column, rule),
        Err(Memory) => BatchEnd::Memory,
    }
}

fn numbered(at: usize, column: Words, rule: ImportRule) -> BatchEnd
    ensures { IfRefused result (λ e. e ≡ BatchEnd.Refused at column rule) }
{
    match u32::try_from(at) {
        Ok(at) => BatchEnd::Refused(at, column, rule),
        Err(_) => BatchEnd::Memory,
    }
}
