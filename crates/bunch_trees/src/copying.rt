//! Nodes that come under targets, and copies of them.
ghost use Rattle.std.specs.Prelude.{◌≡◌, ◌<◌, ◌-◌, ◌++◌, ℕ, List, [], ◌∷◌, None, true, IfOk, OnOk, get_or, length, map, take};
ghost use Rattle.std.specs.List.{fold};
ghost use Rattle.js_tree.specs.Forest.{Forest};
ghost use Rattle.query_grammar.specs.Finds.{has_number};
ghost use Rattle.object_store.specs.Owned.{owned};
ghost use Rattle.event_loop.specs.declared.around.Loop.{Loop};
ghost use Rattle.widget_meaning.specs.BunchWrites.{appended, with_copies};
ghost use Rattle.widget_meaning.specs.Trees.{moved};
ghost use Rattle.js_image.specs.Held.{Kept};
ghost use Rattle.page_image.specs.Copies.{AreCopied};
ghost use Rattle.page_image.specs.Image.{HasRoot, forest, number, owns};
ghost use Rattle.page_image.specs.Stays.{HostStays, KeepsNodes, OthersStay};
ghost use Rattle.native_image.specs.Sound.{HoldsOwn, IsSound, KeepsAll};
ghost use Rattle.bunch_trees.specs.Changes.{Changes};

use code_units::Memory;
use native_common::WidgetId;
use native_image::copy_tree;
use object_store::Store;
use page_tree::{NodeId, Page};
use std::alloc::Global;

/// Puts nodes behind the last child of a target, which was judged before. A refusal is answered like
/// want of memory.
pub(crate) fn put_under(
    page: &mut Page,
    w: WidgetId,
    target: NodeId,
    news: &[NodeId],
) -> Result<(), Memory>
    requires home { HasRoot page.old w.index }
    requires target { owns page.old w.index target ≡ true }
    requires news { (n : ℕ) → has_number news.now n ≡ true → owns page.old w.index n ≡ true }
    ensures image { OnOk result (forest page.new w.index ≡
        fold (moved (number page.old w.index target) None) (forest page.old w.index) (map (number page.old w.index) news.now)) }
    ensures kept { KeepsNodes page.old page.new }
    ensures others { OthersStay page.old page.new w.index }
    ensures host { HostStays page.old page.new }
{
    match page_image::append(page, w.index, target, news) {
        Ok(()) => Ok(()),
        Err(_) => Err(Memory),
    }
}

// Puts a node behind others.
fn keep(ids: &mut Vec<NodeId>, id: NodeId) -> Result<(), Memory>
    ensures { OnOk result (ids.new.items ≡ ids.old.items ++ id ∷ []) }
{
    ids.push(id)?;
    Ok(())
}

// Copies of nodes, each with its cell, behind all other trees of the widget.
fn copy_all(
    alloc: Global,
    store: &mut Store,
    page: &mut Page,
    w: WidgetId,
    news: &[NodeId],
) -> Result<Vec<NodeId>, Memory>
    requires { (n : ℕ) → has_number news.now n ≡ true → owns page.old w.index n ≡ true }
    ensures copied { IfOk result (λ ids. AreCopied page.old page.new w.index news.now ids.items) }
    ensures sound { OnOk result ((l : Loop) → IsSound w.index store.old page.old l → IsSound w.index store.new page.new l) }
    ensures same { (v : ℕ) → owned v store.new ≡ owned v store.old }
    ensures store { (fs : List Forest) → Kept fs w.index store.old store.new }
    ensures kept { (l : Loop) → HoldsOwn w.index store.old page.old l → KeepsAll w.index store.old store.new page.old page.new l }
{
    let mut ids = Vec::new(alloc);
    'each: for node in news {
        let id = copy_tree(alloc, store, page, w, *node)?;
        keep(&mut ids, id)?;
    }
    Ok(ids)
}

// Puts copies of nodes behind the last child of a target.
fn append_copies(
    alloc: Global,
    store: &mut Store,
    page: &mut Page,
    w: WidgetId,
    target: NodeId,
    news: &[NodeId],
) -> Result<(), Memory>
    requires sound { (l : Loop) × IsSound w.index store.old page.old l }
    requires target { owns page.old w.index target ≡ true }
    requires news { (n : ℕ) → has_number news.now n ≡ true → owns page.old w.index n ≡ true }
    ensures done { OnOk result (Changes w.index store.old store.new page.old page.new
        (with_copies (number page.old w.index target) (map (number page.old w.index) news.now))) }
    ensures kept { (l : Loop) → HoldsOwn w.index store.old page.old l → KeepsAll w.index store.old store.new page.old page.new l }
{
    let ids = copy_all(alloc, store, page, w, news)?;
    put_under(page, w, target, &ids)
}

// Each target gets copies of nodes.
fn copies_to(
    alloc: Global,
    store: &mut Store,
    page: &mut Page,
    w: WidgetId,
    targets: &[NodeId],
    news: &[NodeId],
) -> Result<(), Memory>
    requires sound { (l : Loop) × IsSound w.index store.old page.old l }
    requires targets { (n : ℕ) → has_number targets.now n ≡ true → owns page.old w.index n ≡ true }
    requires news { (n : ℕ) → has_number news.now n ≡ true → owns page.old w.index n ≡ true }
    ensures done { OnOk result (Changes w.index store.old store.new page.old page.new
        (λ s. fold (λ u t. with_copies t (map (number page.old w.index) news.now) u) s
        (map (number page.old w.index) targets.now))) }
    ensures kept { (l : Loop) → HoldsOwn w.index store.old page.old l → KeepsAll w.index store.old store.new page.old page.new l }
{
    'each: for target in targets {
        append_copies(alloc, store, page, w, *target, news)?;
    }
    Ok(())
}

// All of some nodes but the last.
fn but_last(nodes: &[NodeId]) -> &[NodeId]
    requires { 0 < length nodes.now }
    ensures { result.now ≡ take (length nodes.now - 1) nodes.now }
{
    &nodes[..nodes.len() - 1]
}

// The last of some nodes.
fn last(nodes: &[NodeId]) -> NodeId
    requires { 0 < length nodes.now }
    ensures { result ≡ get_or nodes.now (length nodes.now - 1) 0 }
{
    nodes[nodes.len() - 1]
}

/// Each target but the last gets copies of nodes, the last the nodes themselves.
pub(crate) fn append_all(
    alloc: Global,
    store: &mut Store,
    page: &mut Page,
    w: WidgetId,
    targets: &[NodeId],
    news: &[NodeId],
) -> Result<(), Memory>
    requires sound { (l : Loop) × IsSound w.index store.old page.old l }
    requires targets { (n : ℕ) → has_number targets.now n ≡ true → owns page.old w.index n ≡ true }
    requires news { (n : ℕ) → has_number news.now n ≡ true → owns page.old w.index n ≡ true }
    ensures done { OnOk result (Changes w.index store.old store.new page.old page.new
        (appended (map (number page.old w.index) targets.now) (map (number page.old w.index) news.now))) }
    ensures kept { (l : Loop) → HoldsOwn w.index store.old page.old l → KeepsAll w.index store.old store.new page.old page.new l }
{
    if targets.is_empty() {
        return Ok(());
    }
    copies_to(alloc, store, page, w, but_last(targets), news)?;
    put_under(page, w, last(targets), news)
}
