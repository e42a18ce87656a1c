//! What formulas stand on.
ghost use Rattle.std.specs.Prelude.{◌≡◌, ◌↔◌, ◌⊎◌, IfOk, filter, length, map, not, replicate, []};
ghost use Rattle.app_cells.specs.Leaning.{edges_of};
ghost use Rattle.app_cells.specs.Reach as reach;
ghost use Rattle.app_cells.specs.declared.app.CellInfo.{CellInfo as Formula};
ghost use Rattle.app_loader.specs.Supports.{AllRise, AreSupported, AreSupports, HaveRisingReads};
ghost use Rattle.app_loader.specs.Supports.{IsBehind, IsJoined, without_support};
ghost use Rattle.depend_graph.specs.Order.{IsOrder};
ghost use Rattle.fx_core.specs.Reads.{AreSourcesRising, IsAmong, source_order};
ghost use Rattle.fx_core.specs.declared.sources.Source.{Source as Named};

use crate::edges::cell_behind;
use crate::infos::in_order;
use app_cells::CellInfo;
use fx_base::{InOrder, Memory};
use fx_core::{Names, Source, Sources};
use std::alloc::Global;
use std::cmp::Ordering;

// Whether a source is a cell.
fn is_cell(source: Source) -> bool
    ensures { result ≡ reach.is_cell source }
{
    matches!(source, Source::Cell(_))
}

// Which of two sources comes first.
fn compare(left: Source, right: Source) -> Ordering
    ensures { result ≡ source_order left right }
{
    left.cmp(&right)
}

// The sources of both lists, each once.
fn merge(alloc: Global, left: &[Source], right: &[Source]) -> Result<Vec<Source>, Memory>
    requires left { AreSourcesRising left.now }
    requires right { AreSourcesRising right.now }
    ensures once { IfOk result (λ r. AreSourcesRising r.items) }
    ensures exact { IfOk result (λ r. (s : Named) → IsAmong s r.items
        ↔ (IsAmong s left.now ⊎ IsAmong s right.now)) }
{
    let mut all = Vec::new(alloc);
    let mut left = left;
    let mut right = right;
    while let Some((one, ones)) = left.split_first() {
        let Some((other, others)) = right.split_first() else {
            all.extend_from_slice(left)?;
            return Ok(all);
        };
        match compare(*one, *other) {
            Ordering::Less => {
                all.push(*one)?;
                left = ones;
            }
            Ordering::Equal => left = ones,
            Ordering::Greater => {
                all.push(*other)?;
                right = others;
            }
        }
    }
    all.extend_from_slice(right)?;
    Ok(all)
}

// The sources that are no cells.
fn without_cells(alloc: Global, sources: &[Source]) -> Result<Vec<Source>, Memory>
    ensures { IfOk result (λ r. r.items ≡ filter (λ s. not (reach.is_cell s)) sources.now) }
{
    let mut others = Vec::new(alloc);
    for source in sources {
        if !is_cell(*source) {
            others.push(*source)?;
        }
    }
    Ok(others)
}

// Sources, and those on which the formula stands that who names this source leans on.
fn with_behind(
    alloc: Global,
    names: &Names,
    source: Source,
    supports: &[Sources],
    sources: Vec<Source>,
) -> Result<Vec<Source>, Memory>
    requires sources { AreSourcesRising sources.items }
    requires supports { AllRise supports.now }
    ensures once { IfOk result (λ r. AreSourcesRising r.items) }
    ensures exact { IfOk result (λ r. (s : Named) → IsAmong s r.items
        ↔ (IsAmong s sources.items ⊎ IsBehind names.now supports.now source s)) }
{
    let Some(cell) = cell_behind(names, source) else {
        return Ok(sources);
    };
    match supports.get(cell as usize) {
        Some(support) => merge(alloc, &sources, support.as_slice()),
        None => Ok(sources),
    }
}

// What a formula stands on that names these sources, by what the formulas on which it leans stand
// on.
fn support_of(
    alloc: Global,
    names: &Names,
    reads: &[Source],
    supports: &[Sources],
) -> Result<Sources, Memory>
    requires reads { AreSourcesRising reads.now }
    requires supports { AllRise supports.now }
    ensures { IfOk result (IsJoined names.now reads.now supports.now) }
{
    let mut support = without_cells(alloc, reads)?;
    for source in reads {
        support = with_behind(alloc, names, *source, supports, support)?;
    }
    in_order(alloc, support)
}

// So many lists with no source.
fn no_supports(alloc: Global, count: usize) -> Result<Vec<Sources>, Memory>
    ensures { IfOk result (λ v. v.items ≡ replicate count []) }
{
    let mut supports = Vec::new(alloc);
    for _ in 0..count {
        supports.push(InOrder::new(alloc))?;
    }
    Ok(supports)
}

// What each formula stands on, by their numbers.
fn supports_of(
    alloc: Global,
    names: &Names,
    infos: &[CellInfo],
    order: &[u32],
) -> Result<Vec<Sources>, Memory>
    requires reads { HaveRisingReads infos.now }
    requires order { IsOrder (length infos.now) (edges_of names.now infos.now) order.now }
    ensures { IfOk result (λ v. AreSupports names.now infos.now v.items) }
{
    let mut supports = no_supports(alloc, infos.len())?;
    for number in order {
        let place = *number as usize;
        let support = support_of(alloc, names, infos[place].reads.as_slice(), &supports)?;
        supports[place] = support;
    }
    Ok(supports)
}

// Formulas, each with what it stands on.
fn with_supports(
    alloc: Global,
    infos: InOrder<CellInfo>,
    supports: Vec<Sources>,
) -> Result<InOrder<CellInfo>, Memory>
    requires { length supports.items ≡ length infos }
    ensures same { IfOk result (λ l. map without_support l ≡ map without_support infos) }
    ensures supports { IfOk result (λ l. map (λ (i : Formula). i.support) l ≡ supports.items) }
{
    let mut all = InOrder::new(alloc);
    for (mut info, support) in infos.into_items().into_iter().zip(supports) {
        info.support = support;
        all.push(info)?;
    }
    Ok(all)
}

/// Formulas under names, of which this is an order, each with what it stands on.
pub fn support_all(
    alloc: Global,
    names: &Names,
    infos: InOrder<CellInfo>,
    order: &[u32],
) -> Result<InOrder<CellInfo>, Memory>
    requires reads { HaveRisingReads infos }
    requires order { IsOrder (length infos) (edges_of names.now infos) order.now }
    ensures { IfOk result (AreSupported names.now infos) }
{
    let supports = supports_of(alloc, names, infos.as_slice(), order)?;
    with_supports(alloc, infos, supports)
}
