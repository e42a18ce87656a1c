//! Which sources a typed tree reads.
ghost use Rattle.std.specs.Prelude.{◌≡◌, ◌≤◌, ◌++◌, [], length, insert, IfOk, OnOk, OnErr};
ghost use Rattle.std.specs.Prelude.{MatchOption, ◌↔◌};
ghost use Rattle.fx_core.specs.Reads.{AreSourcesRising, IsAmong, source_order, source_rank};
ghost use Rattle.fx_core.specs.Reads.{source_number, sources_in, sources_among};
ghost use Rattle.fx_core.specs.Term.{all, field_terms};
ghost use Rattle.fx_core.specs.Rising.{put, put_all};

use crate::sources::Source;
use crate::trees::{Core, CoreArgs, CoreFields, CoreNode};
use fx_base::Memory;
use std::alloc::Global;
use std::cmp::Ordering;

fn rank(source: Source) -> u8
    ensures { result ≡ source_rank source }
{
    match source {
        Source::Cell(_) => 0,
        Source::Global(_) => 1,
        Source::Context(_) => 2,
        Source::Gathered(_) => 3,
        Source::Input(_) => 4,
        Source::Chosen(_) => 5,
        Source::Table(_) => 6,
        Source::Today => 7,
    }
}

fn number(source: Source) -> u32
    ensures { result ≡ source_number source }
{
    match source {
        Source::Cell(number)
        | Source::Global(number)
        | Source::Context(number)
        | Source::Gathered(number)
        | Source::Input(number)
        | Source::Chosen(number) => number,
        Source::Table(number) => number as u32,
        Source::Today => 0,
    }
}

fn order(left: Source, right: Source) -> Ordering
    ensures { result ≡ source_order left right }
{
    rank(left)
        .cmp(&rank(right))
        .then(number(left).cmp(&number(right)))
}

// The place at which a source keeps sources rising, and none where it is among them.
fn place_in(sources: &[Source], source: Source) -> Option<usize>
    ensures { MatchOption result (put source sources.now ≡ sources.now)
        (λ i. (i ≤ length sources.now) × (put source sources.now ≡ insert sources.now i source)) }
{
    for (place, other) in sources.iter().enumerate() {
        match order(source, *other) {
            Ordering::Less => return Some(place),
            Ordering::Equal => return None,
            Ordering::Greater => {}
        }
    }
    Some(sources.len())
}

// The sources, each once and rising.
fn sort_sources(alloc: Global, sources: &[Source]) -> Result<Vec<Source>, Memory>
    ensures { IfOk result (λ r. r.items ≡ put_all sources.now []) }
{
    let mut once = Vec::new(alloc);
    for source in sources {
        if let Some(place) = place_in(once.as_slice(), *source) {
            once.insert(place, *source)?;
        }
    }
    Ok(once)
}

impl Core {
    /// The sources that the tree names, each once, in the order of `Source`. What acting parts
    /// change is not read.
    pub fn reads(&self, alloc: Global) -> Result<Vec<Source>, Memory>
        ensures once { IfOk result (λ r. AreSourcesRising r.items) }
        ensures exact { IfOk result (λ r. (s : Source) → IsAmong s r.items
            ↔ IsAmong s (sources_in self.now)) }
    {
        let mut named = Vec::new(alloc);
        self.gather(&mut named)?;
        sort_sources(alloc, named.as_slice())
    }

    #[cycle(gather)]
    fn gather(&self, named: &mut Vec<Source>) -> Result<(), Memory>
        ensures { OnOk result (named.new.items ≡ named.old.items ++ sources_in self.now) }
    {
        match &self.node {
            CoreNode::Read(source) => {
                named.push(*source)?;
                Ok(())
            }
            CoreNode::Const(_) | CoreNode::Row(_) | CoreNode::Item | CoreNode::Caught => Ok(()),
            CoreNode::Dot(part, _) | CoreNode::Coerce(part, _) => part.gather(named),
            CoreNode::Over(_, table, parts) => {
                table.gather(named)?;
                parts.gather(named)
            }
            CoreNode::With(record, formula) => {
                record.gather(named)?;
                formula.gather(named)
            }
            CoreNode::Rec(fields) => fields.gather(named),
            CoreNode::Call(_, parts)
            | CoreNode::User(_, parts)
            | CoreNode::List(_, parts)
            | CoreNode::All(parts)
            | CoreNode::Any(parts)
            | CoreNode::If(parts)
            | CoreNode::Switch(parts)
            | CoreNode::IfError(parts)
            | CoreNode::Chain(parts)
            | CoreNode::Act(_, parts) => parts.gather(named),
        }
    }
}

impl CoreArgs {
    #[cycle(gather)]
    fn gather(&self, named: &mut Vec<Source>) -> Result<(), Memory>
        ensures { OnOk result (named.new.items ≡ named.old.items ++ sources_among (all self.now)) }
    {
        for part in &self.items {
            part.gather(named)?;
        }
        Ok(())
    }
}

impl CoreFields {
    #[cycle(gather)]
    fn gather(&self, named: &mut Vec<Source>) -> Result<(), Memory>
        ensures { OnOk result (named.new.items
            ≡ named.old.items ++ sources_among (field_terms self.now)) }
    {
        for (_, part) in &self.items {
            part.gather(named)?;
        }
        Ok(())
    }
}
