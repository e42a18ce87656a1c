//! For each number a list of others: its readers, or what it reads.
ghost use Rattle.std.specs.Prelude.{◌≡◌, ◌⊎◌, ℕ, ◌<◌, ◌≤◌, ◌^◌, ◌++◌, ◌∷◌, [], ◌↔◌, length};
ghost use Rattle.std.specs.Prelude.{vec_len, All, Contains, IfOk, OnOk, slice_set};
ghost use Rattle.depend_graph.specs.Order.{AreBelow};
ghost use Rattle.depend_graph.specs.Lists.{nth_list, lists_of, AddsEach, AreReaders, AreTurned};
ghost use Rattle.depend_graph.specs.Lists.{HoldBelow};

use fx_number::Memory;
use std::alloc::Global;

/// As many lists without an item.
fn empty_lists(alloc: Global, count: u32) -> Result<Vec<Vec<u32>>, Memory>
    ensures len { IfOk result (λ v. vec_len v ≡ count) }
    ensures empty { IfOk result (λ v. (place : ℕ) → nth_list (lists_of v.items) place ≡ []) }
{
    let mut lists = Vec::new(alloc);
    for _ in 0..count {
        lists.push(Vec::new(alloc))?;
    }
    Ok(lists)
}

/// Adds an item to one list.
fn add_at(lists: &mut Vec<Vec<u32>>, place: u32, item: u32) -> Result<(), Memory>
    requires { place < vec_len lists.old }
    ensures len { vec_len lists.new ≡ vec_len lists.old }
    ensures ok { OnOk result (lists_of lists.new.items ≡
        slice_set (lists_of lists.old.items) place
        (nth_list (lists_of lists.old.items) place ++ item ∷ [])) }
{
    lists[place as usize].push(item)?;
    Ok(())
}

/// Adds an item to the list at each of these places.
fn add_to_each(lists: &mut Vec<Vec<u32>>, places: &[u32], item: u32) -> Result<(), Memory>
    requires { All (λ place. place < vec_len lists.old) places.now }
    ensures len { vec_len lists.new ≡ vec_len lists.old }
    ensures ok { OnOk result (AddsEach places.now item (lists_of lists.old.items)
        (lists_of lists.new.items)) }
{
    for place in places {
        add_at(lists, *place, item)?;
    }
    Ok(())
}

/// For each number its readers.
pub(crate) fn readers(
    alloc: Global,
    count: u32,
    edges: &[(u32, u32)],
) -> Result<Vec<Vec<u32>>, Memory>
    requires { AreBelow count edges.now }
    ensures len { IfOk result (λ v. vec_len v ≡ count) }
    ensures readers { IfOk result (λ v. AreReaders edges.now (lists_of v.items)) }
{
    let mut lists = empty_lists(alloc, count)?;
    for (reader, read) in edges {
        add_at(&mut lists, *read, *reader)?;
    }
    Ok(lists)
}

/// For each number what it reads, from lists of readers. What a number reads rises.
pub(crate) fn transpose(
    alloc: Global,
    count: u32,
    readers: &[Vec<u32>],
) -> Result<Vec<Vec<u32>>, Memory>
    requires len { length readers.now ≡ count }
    requires below { HoldBelow count (lists_of readers.now) }
    ensures len { IfOk result (λ v. vec_len v ≡ count) }
    ensures turned { IfOk result (λ v. AreTurned (lists_of readers.now) (lists_of v.items)) }
{
    let mut lists = empty_lists(alloc, count)?;
    for number in 0..count {
        add_to_each(&mut lists, readers[number as usize].as_slice(), number)?;
    }
    Ok(lists)
}
