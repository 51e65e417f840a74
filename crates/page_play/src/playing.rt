//! A page is loaded, takes its items and settles.
ghost use Rattle.std.specs.Prelude.{◌≡◌, ◌≤◌, ◌<◌, ◌++◌, ◌∷◌, [], ℕ, List, length, map, drop, slice_get, All, Some, false, IfOk, OnOk};
ghost use Rattle.trace_reader.specs.Said.{Said, said, a_swap};
ghost use Rattle.trace_reader.specs.Trace.{most_items};
ghost use Rattle.page_plan.specs.Loadable.{IsLoadable, AreLoadableSwaps, IsSwapLoadable, names_of};
ghost use Rattle.page_plan.specs.declared.PageSpec.{PageSpec as PageSpecOf};
ghost use Rattle.page_plan.specs.declared.SlotContent.{SlotContent as SlotContentOf};
ghost use Rattle.slot_lives.specs.Lives.{swaps_in};
ghost use Rattle.widget_host.specs.Housed.{IsHoused, IsItem, chains, ends, given, libraries, marked, names};
ghost use Rattle.page_play.specs.Swaps.{swap_slots};
ghost use Rattle.page_play.specs.Played.{IsFor, IsPlayed};
ghost use Rattle.page_play.specs.Playing.{MayGive, Plays};
ghost use Rattle.page_play.specs.Settled.{IsSettled, said_of};

use code_units::Memory;
use event_loop::Event;
use keyed_names::Keys;
use page_plan::{PageSpec, SlotContent};
use std::alloc::Global;
use std::collections::VecDeque;
use trace_reader::TraceItem;
use turn_sched::RoundRobin;
use widget_host::{Host, HostItem, given_lives, loaded_lives, swapped_lives};

/// How many asks the chooser keeps: those of a full journal, and one for each slot.
const ASKS: usize = 65_552;

/// A page that is loaded, has taken these items and has settled, with rounds of posts to their end. The swaps among the
/// items, at most four, bring these contents, in order.
pub fn play(
    alloc: Global,
    keys: Keys,
    spec: PageSpec,
    items: Vec<TraceItem>,
    swaps: Vec<SlotContent>,
    slice: u32,
) -> Result<Host, Memory>
    requires some { 1 ≤ slice }
    requires loadable { IsLoadable spec }
    requires few { length items.items ≤ most_items }
    requires each { All (IsFor (length spec.slots.items)) (map said items.items) }
    requires swaps { AreLoadableSwaps (length spec.libs.items) (names_of spec)
        (swap_slots (map said items.items)) swaps.items }
    requires few_swaps { length swaps.items ≤ 4 }
    ensures played { IfOk result (IsPlayed spec swaps.items (map said items.items)) }
    ensures settled { IfOk result (IsSettled spec swaps.items (map said items.items) slice) }
{
    loaded_lives();
    let mut host = Host::load(alloc, keys, spec)?;
    let mut left = VecDeque::from_vec(swaps);
    'items: for item in items {
        give(alloc, &mut host, item, &mut left)?;
    }
    let mut chooser = RoundRobin::new(alloc, ASKS)?;
    host.rounds(alloc, &mut chooser, slice)?;
    // Its clause says that what the chooser was asked took turns, as `settled` does.
    let _ = chooser.asks();
    Ok(host)
}

// Gives an item of a trace; a swap brings the first content that is left.
fn give(
    alloc: Global,
    host: &mut Host,
    item: TraceItem,
    left: &mut VecDeque<SlotContent>,
) -> Result<(), Memory>
    requires housed { IsHoused host.old }
    requires unmarked { marked host.old ≡ false }
    requires room { given host.old < 4096 }
    requires may { MayGive left.old.items host.old (said item) }
    ensures gives { OnOk result ((spec : PageSpecOf) (swaps : List SlotContentOf) (items : List Said)
        → left.old.items ≡ drop (swaps_in items) swaps → Plays spec swaps items host.old
        → Plays spec swaps (items ++ said item ∷ []) host.new) }
    ensures left { OnOk result ((swaps : List SlotContentOf) (items : List Said)
        → left.old.items ≡ drop (swaps_in items) swaps
        → left.new.items ≡ drop (swaps_in (items ++ said item ∷ [])) swaps) }
{
    match item {
        TraceItem::Event { to, event } => {
            let event = Event {
                kind: event.kind,
                path: event.path,
                value: event.value,
            };
            give_item(host, HostItem::Event { to, event })
        }
        TraceItem::Advance(ms) => give_item(host, HostItem::Advance(ms)),
        TraceItem::Swap { to, .. } => match left.pop_front() {
            Some(content) => give_swap(alloc, host, to, content),
            None => unreachable!(),
        },
    }
}

// Gives an item that is queued.
fn give_item(host: &mut Host, item: HostItem) -> Result<(), Memory>
    requires housed { IsHoused host.old }
    requires unmarked { marked host.old ≡ false }
    requires room { given host.old < 4096 }
    requires shape { IsItem item (length (chains host.old)) }
    ensures { OnOk result ((spec : PageSpecOf) (swaps : List SlotContentOf) (items : List Said)
        → Plays spec swaps items host.old → Plays spec swaps (items ++ said_of item ∷ []) host.new) }
{
    given_lives();
    host.give(item)?;
    Ok(())
}

// Gives a swap that brings this content.
fn give_swap(alloc: Global, host: &mut Host, to: u32, content: SlotContent) -> Result<(), Memory>
    requires housed { IsHoused host.old }
    requires unmarked { marked host.old ≡ false }
    requires room { given host.old < 4096 }
    requires there { to < length (chains host.old) }
    requires few { length (ends host.old) < 4 }
    requires loadable { (name : List ℕ) → slice_get (names host.old) to ≡ Some name
        → IsSwapLoadable (length (libraries host.old)) name content }
    ensures { OnOk result ((spec : PageSpecOf) (swaps : List SlotContentOf) (items : List Said) (file : List ℕ)
        → slice_get swaps (swaps_in items) ≡ Some content → Plays spec swaps items host.old
        → Plays spec swaps (items ++ a_swap to file ∷ []) host.new) }
{
    swapped_lives();
    host.give_swap(alloc, to, content)?;
    Ok(())
}
