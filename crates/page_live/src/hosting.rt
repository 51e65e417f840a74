//! A host takes the items of a page one after the other.
ghost use Rattle.std.specs.Prelude.{◌≡◌, ◌≤◌, ◌<◌, ◌++◌, ◌∷◌, [], ℕ, List, length, slice_get, Some, false, IfOk, OnOk};
ghost use Rattle.trace_reader.specs.Said.{Said, a_swap};
ghost use Rattle.page_plan.specs.Loadable.{IsLoadable, IsSwapLoadable};
ghost use Rattle.page_plan.specs.declared.PageSpec.{PageSpec as PageSpecOf};
ghost use Rattle.page_plan.specs.declared.SlotContent.{SlotContent as SlotContentOf};
ghost use Rattle.page_play.specs.Housed.{IsHoused, IsItem, chains, ends, given, libraries, marked, names};
ghost use Rattle.page_play.specs.Settled.{said_of};
ghost use Rattle.page_live.specs.Living.{IsLive};

use code_units::Memory;
use keyed_names::Keys;
use page_plan::{PageSpec, SlotContent};
use page_play::{Host, HostItem, given_lives, loaded_lives, swapped_lives};
use std::alloc::Global;
use turn_sched::RoundRobin;

/// A host of this page: it is loaded, and rounds of posts follow to their end. The keys are those of
/// `Host::load`, and a
/// pick runs `slice` units. The only error is want of memory.
pub fn load_page(alloc: Global, keys: Keys, spec: PageSpec, slice: u32) -> Result<Host, Memory>
    requires some { 1 ≤ slice }
    requires loadable { IsLoadable spec }
    ensures { IfOk result (IsLive spec [] []) }
{
    loaded_lives();
    let mut host = Host::load(alloc, keys, spec)?;
    let mut chooser = RoundRobin::new(alloc, 0)?;
    host.rounds(alloc, &mut chooser, slice)?;
    Ok(host)
}

/// An event or an advance is given, and rounds of posts follow to their end. The only error is want of memory, and it
/// leaves the host marked.
pub fn give_item(alloc: Global, host: &mut Host, item: HostItem, slice: u32) -> Result<(), Memory>
    requires some { 1 ≤ slice }
    requires housed { IsHoused host.old }
    requires unmarked { marked host.old ≡ false }
    requires room { given host.old < 4096 }
    requires shape { IsItem item (length (chains host.old)) }
    ensures { OnOk result ((spec : PageSpecOf) (swaps : List SlotContentOf) (items : List Said)
        → IsLive spec swaps items host.old → IsLive spec swaps (items ++ said_of item ∷ []) host.new) }
{
    given_lives();
    host.give(item)?;
    let mut chooser = RoundRobin::new(alloc, 0)?;
    host.rounds(alloc, &mut chooser, slice)?;
    Ok(())
}

/// A swap of a slot that brings this content is given, and rounds of posts follow to their end. The error is as that of
/// `give_item`.
pub fn give_swap(
    alloc: Global,
    host: &mut Host,
    to: u32,
    content: SlotContent,
    slice: u32,
) -> Result<(), Memory>
    requires some { 1 ≤ slice }
    requires housed { IsHoused host.old }
    requires unmarked { marked host.old ≡ false }
    requires room { given host.old < 4096 }
    requires there { to < length (chains host.old) }
    requires few { length (ends host.old) < 4 }
    requires loadable { (name : List ℕ) → slice_get (names host.old) to ≡ Some name
        → IsSwapLoadable (length (libraries host.old)) name content }
    ensures { OnOk result ((spec : PageSpecOf) (swaps : List SlotContentOf) (items : List Said) (file : List ℕ)
        → IsLive spec swaps items host.old
        → IsLive spec (swaps ++ content ∷ []) (items ++ a_swap to file ∷ []) host.new) }
{
    swapped_lives();
    host.give_swap(alloc, to, content)?;
    let mut chooser = RoundRobin::new(alloc, 0)?;
    host.rounds(alloc, &mut chooser, slice)?;
    Ok(())
}
