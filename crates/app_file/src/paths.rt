//! The way down to a part of a file.
ghost use Rattle.std.specs.Prelude.{◌≡◌, ◌∷◌, [], IfOk, OnOk, string_bytes};
ghost use Rattle.fx_base.specs.declared.or_memory.OrMemory.TheVariants as end;
ghost use Rattle.fx_types.specs.Words.{scalars_of};
ghost use Rattle.app_file.specs.declared.steps.Step.TheVariants as step;
ghost use Rattle.app_file.specs.Paths.{path_text, step_text};
ghost use Rattle.app_file.specs.Readings.{IsUnderStep, TellsPath};

use crate::steps::Step;
use fx_base::{Memory, OrMemory};
use fx_types::words::Words;
use std::alloc::Global;
use std::marker::Model;

/// The way down to a part.
#[derive(Drop)]
pub struct Path {
    steps: Vec<Step>,
}

impl Model for Path {
    ghost use Rattle.std.specs.Prelude.{List};
    ghost use Rattle.std.specs.Coded.{coded_list};
    ghost use Rattle.app_file.specs.declared.steps.Step.{Step as Down};
    ghost use Rattle.app_file.specs.contracts.steps.Step.{the_row as step_row};

    ghost Value = { List Down };

    ghost coded = { coded_list step_row.coded };

    ghost view = { λ a. a.steps.items };
}

/// Why a part isn't read: the way down to a part of it that isn't of its form.
pub type Unread = OrMemory<Path>;

impl Path {
    /// No step.
    pub fn new(alloc: Global) -> Path
        ensures { result ≡ [] }
    {
        Path {
            steps: Vec::new(alloc),
        }
    }

    /// Puts a step before the others.
    pub fn put_first(&mut self, step: Step) -> Result<(), Memory>
        ensures { OnOk result (self.new ≡ step ∷ self.old) }
    {
        self.steps.insert(0, step)?;
        Ok(())
    }

    /// The steps, joined by `/`.
    pub fn text(&self, alloc: Global) -> Result<Words, Memory>
        ensures { IfOk result (λ w. w ≡ path_text self.now) }
    {
        let mut texts = Vec::with_capacity(alloc, self.steps.len())?;
        for step in &self.steps {
            texts.push(step_text(alloc, step)?)?;
        }
        let joined = texts.as_slice().join(alloc, "/")?;
        Words::of(alloc, joined.as_str())
    }
}

// A key as it is, and a number in digits.
fn step_text(alloc: Global, step: &Step) -> Result<String, Memory>
    ensures { IfOk result (λ s. string_bytes s ≡ step_text step.now) }
{
    match step {
        Step::Member(key) => Ok(String::from_str(alloc, key.as_str())?),
        Step::Element(place) => Ok(format!(in alloc; "{place}")?),
    }
}

/// That the part itself isn't of its form.
pub fn unreadable(alloc: Global) -> Unread
    ensures { result ≡ end.Refused [] }
{
    OrMemory::Refused(Path::new(alloc))
}

// The end of a part, told from above a step.
fn above(step: Step, end: Unread) -> Unread
    ensures { IsUnderStep step end result }
{
    match end {
        OrMemory::Refused(mut path) => match path.put_first(step) {
            Ok(()) => OrMemory::Refused(path),
            Err(Memory) => OrMemory::Memory,
        },
        OrMemory::Memory => OrMemory::Memory,
    }
}

/// The end of a member, told of its object.
pub fn in_member(alloc: Global, key: &str, end: Unread) -> Unread
    ensures { IsUnderStep (step.Member (scalars_of key.now)) end result }
{
    match Words::of(alloc, key) {
        Ok(key) => above(Step::Member(key), end),
        Err(Memory) => OrMemory::Memory,
    }
}

/// The end of an element, told of its list.
pub fn in_element(place: usize, end: Unread) -> Unread
    ensures { IsUnderStep (step.Element place) end result }
{
    above(Step::Element(place), end)
}

/// That a member isn't as it has to be.
pub fn unread_member(alloc: Global, key: &str) -> Unread
    ensures { TellsPath (λ path. path ≡ step.Member (scalars_of key.now) ∷ []) result }
{
    in_member(alloc, key, unreadable(alloc))
}
