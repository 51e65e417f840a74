//! The places of all lives: the first life of each slot with its load turns, and those of which none is born.
ghost use Rattle.std.specs.Prelude.{◌≡◌, ◌<◌, ℕ, [], List, IfOk, IfSome, None, OnErr, OnOk, false, length, slice_index_or};
ghost use Rattle.js_tree.specs.Forest.{Forest};
ghost use Rattle.object_store.specs.Owned.{owned};
ghost use Rattle.js_image.specs.Held.{Kept};
ghost use Rattle.js_image.specs.Laws.{AreLawful};
ghost use Rattle.page_nodes.specs.Entries.{body};
ghost use Rattle.page_build.specs.Homes.{HaveRaws};
ghost use Rattle.page_load.specs.Laying.{IsBare, IsUnused, nothing_owned};
ghost use Rattle.page_load.specs.Lives.{ArePlaces, HasTree, HaveRoots, HaveTrees, IsBegun, IsBlank, IsIn, IsLib, IsNewLife, IsNobodys, IsPlaceOf, IsPlaceWith, IsReady, IsUnborn, KeepsOthers};
ghost use Rattle.page_load.specs.Owning.{one_object};

use crate::codes::{Scripts, Start, all_codes};
use crate::queues::load_turns;
use code_units::{Memory, Owner};
use event_loop::Loop;
use keyed_names::Keys;
use native_common::WidgetId;
use native_image::{Shared, Widget};
use object_store::{CellId, HostEntry, NewCell, Store};
use page_nodes::BODY;
use page_tree::NodeId;
use slot_picks::{Life, Place, Records, Work};
use std::alloc::Global;
use std::collections::VecDeque;

/// The most fuel of a turn.
pub(crate) const MOST_FUEL: u32 = 1_000_000;

// The laws of the store, together.
fn lawful(store: &Store)
    ensures { AreLawful store.now.cells }
{
    store.links_are_older();
    store.permitted_leads_on();
    store.host_stays();
    store.arrays_have_length();
    store.cells_have_prototypes();
}

/// The object `lib` of a widget that has nothing yet.
pub(crate) fn make_lib(alloc: Global, store: &mut Store, w: u32) -> Result<CellId, Memory>
    requires widget { w < 32 }
    requires nothing { owned w store.old ≡ nothing_owned }
    ensures lib { IfOk result (IsLib w store.new) }
    ensures one { OnOk result (owned w store.new ≡ one_object) }
    ensures unchanged { OnErr result (store.new ≡ store.old) }
    ensures kept { OnOk result ((fs : List Forest) → Kept fs w store.old store.new) }
{
    lawful(store);
    let proto = store.host(HostEntry::ObjectPrototype);
    match store.make(alloc, Owner::Widget(w), NewCell::Object(proto)) {
        Ok(cell) => Ok(cell),
        Err(_) => Err(Memory),
    }
}

// A widget for which nothing is kept.
fn blank(alloc: Global, keys: Keys, w: u32) -> Result<Widget, Memory>
    requires widget { w < 32 }
    ensures { IfOk result (IsBlank w) }
{
    let around = Loop::new(alloc, keys)?;
    Ok(Widget {
        id: WidgetId { index: w },
        around,
        bubbled: None,
        log: Vec::new(alloc),
        posts: Vec::new(alloc),
    })
}

// Nothing is recorded.
fn no_records(alloc: Global) -> Records
    ensures uncaught { result.uncaught.items ≡ [] }
    ensures turns { result.turns ≡ 0 }
    ensures spent { result.spent ≡ 0 }
    ensures missed { result.missed ≡ 0 }
    ensures gone { result.gone ≡ 0 }
    ensures stop { result.stop ≡ None }
{
    Records {
        uncaught: Vec::new(alloc),
        turns: 0,
        spent: 0,
        missed: 0,
        gone: 0,
        stop: None,
    }
}

/// A place in which no life is accepted.
pub(crate) fn no_place(alloc: Global, keys: Keys, w: u32) -> Result<Place, Memory>
    requires widget { w < 32 }
    ensures slot { IfOk result (IsIn w) }
    ensures unborn { IfOk result IsUnborn }
{
    let widget = blank(alloc, keys, w)?;
    let life = Life {
        slot: w,
        accepted: false,
        grant: 0,
        lib: 0,
        widget,
        records: no_records(alloc),
        turn: None,
        queue: VecDeque::new(alloc),
    };
    Ok(Place {
        life,
        codes: Vec::new(alloc),
        root: BODY,
        told: 0,
    })
}

// An accepted life without the object `lib`, with this grant and this queue.
fn new_life(
    alloc: Global,
    keys: Keys,
    w: u32,
    grant: u32,
    queue: VecDeque<Work>,
) -> Result<Life, Memory>
    requires widget { w < 32 }
    ensures slot { IfOk result (λ life. life.slot ≡ w) }
    ensures new { IfOk result (IsNewLife w grant) }
    ensures queue { IfOk result (λ life. life.queue.items ≡ queue.items) }
{
    let widget = blank(alloc, keys, w)?;
    let records = no_records(alloc);
    Ok(Life {
        slot: w,
        accepted: true,
        grant,
        lib: 0,
        widget,
        records,
        turn: None,
        queue,
    })
}

/// A life with this fuel, these scripts and their load turns, which still wants its tree and the object `lib`.
pub(crate) fn waiting_place(
    alloc: Global,
    keys: Keys,
    w: u32,
    fuel: u32,
    scripts: Scripts,
) -> Result<Place, Memory>
    requires widget { w < 32 }
    ensures slot { IfOk result (IsIn w) }
    ensures ready { IfOk result (IsReady w fuel scripts) }
{
    let codes = all_codes(scripts)?;
    let queue = load_turns(alloc, &codes)?;
    let life = new_life(alloc, keys, w, fuel, queue)?;
    Ok(Place {
        life,
        codes,
        root: BODY,
        told: 0,
    })
}

// A life with this fuel and these scripts begins, with its load turns.
fn begin_place(
    alloc: Global,
    keys: Keys,
    shared: &mut Shared,
    w: u32,
    fuel: u32,
    scripts: Scripts,
) -> Result<Place, Memory>
    requires widget { w < 32 }
    requires unused { IsUnused shared.old.store w }
    requires raws { HaveRaws shared.old.store shared.old.page }
    requires tree { HasTree shared.old.page w }
    ensures slot { IfOk result (IsIn w) }
    ensures begun { IfOk result (IsBegun shared.new w fuel scripts) }
    ensures others { OnOk result (KeepsOthers w shared.old shared.new) }
{
    if fuel > MOST_FUEL {
        return Err(Memory);
    }
    let mut place = waiting_place(alloc, keys, w, fuel, scripts)?;
    let lib = make_lib(alloc, &mut shared.store, w)?;
    place.life.lib = lib;
    Ok(place)
}

// The place of the first life of a slot.
fn first_place(
    alloc: Global,
    keys: Keys,
    shared: &mut Shared,
    w: u32,
    start: Start,
) -> Result<Place, Memory>
    requires widget { w < 32 }
    requires unused { IsUnused shared.old.store w }
    requires raws { HaveRaws shared.old.store shared.old.page }
    requires tree { IfSome start.scripts (λ s. HasTree shared.old.page w) }
    ensures slot { IfOk result (IsIn w) }
    ensures place { IfOk result (IsPlaceWith shared.new w start.fuel start.scripts) }
    ensures same { IfOk result (λ place. place.life.accepted ≡ false → shared.new ≡ shared.old) }
    ensures others { OnOk result (KeepsOthers w shared.old shared.new) }
{
    let Start { fuel, scripts } = start;
    match scripts {
        Some(scripts) => begin_place(alloc, keys, shared, w, fuel, scripts),
        None => no_place(alloc, keys, w),
    }
}

// A place: that of the first life of a slot, if there is one.
fn place_of(
    alloc: Global,
    keys: Keys,
    shared: &mut Shared,
    w: u32,
    start: Option<Start>,
) -> Result<Place, Memory>
    requires widget { w < 32 }
    requires unused { IsUnused shared.old.store w }
    requires raws { HaveRaws shared.old.store shared.old.page }
    requires tree { IfSome start (λ a. IfSome a.scripts (λ s. HasTree shared.old.page w)) }
    ensures slot { IfOk result (IsIn w) }
    ensures place { IfOk result (IsPlaceOf shared.new w start) }
    ensures same { IfOk result (λ place. place.life.accepted ≡ false → shared.new ≡ shared.old) }
    ensures others { OnOk result (KeepsOthers w shared.old shared.new) }
{
    match start {
        Some(start) => first_place(alloc, keys, shared, w, start),
        None => no_place(alloc, keys, w),
    }
}

// The node that stands in a slot; `body` where there is none.
fn root_at(roots: &[NodeId], w: u32) -> NodeId
    ensures { result ≡ slice_index_or roots.now w body }
{
    match roots.get(w as usize) {
        Some(node) => *node,
        None => BODY,
    }
}

/// The twenty places of a host: in those of its slots, which stand here in order, the first life of each begins,
/// where it was not refused, and in the others none is accepted. The nodes that stand in the slots are those of
/// their lives.
pub(crate) fn places_of(
    alloc: Global,
    keys: Keys,
    shared: &mut Shared,
    roots: &[NodeId],
    mut starts: VecDeque<Start>,
) -> Result<Vec<Place>, Memory>
    requires unused { IsUnused shared.old.store 0 }
    requires free { (v : ℕ) → IsBare v shared.old.store }
    requires raws { HaveRaws shared.old.store shared.old.page }
    requires trees { HaveTrees shared.old.page starts.items }
    ensures places { IfOk result (λ places. ArePlaces shared.new starts.items places.items) }
    ensures twenty { IfOk result (λ places. length places.items ≡ 20) }
    ensures roots { IfOk result (λ places. HaveRoots roots.now places.items) }
    ensures others { IfOk result (λ places. (v : ℕ) → IsNobodys places.items v → IsBare v shared.new.store) }
    ensures codes { OnOk result (shared.new.codes ≡ shared.old.codes) }
    ensures page { OnOk result (shared.new.page ≡ shared.old.page) }
    ensures raws { OnOk result (HaveRaws shared.new.store shared.new.page) }
{
    let mut places = Vec::with_capacity(alloc, 20)?;
    'places: for w in 0..20 {
        let start = starts.pop_front();
        let mut place = place_of(alloc, keys, shared, w, start)?;
        place.root = root_at(roots, w);
        places.push(place)?;
    }
    Ok(places)
}
