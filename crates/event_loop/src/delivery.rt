//! Where an event goes.
ghost use Rattle.std.specs.Prelude.{◌≡◌, ◌<◌, [], ◌∷◌, ◌++◌, map, length, Some, None, OnOk, IfOk, option_and_then, slice_get};
ghost use Rattle.std.specs.List.{filter};
ghost use Rattle.std.specs.Str.{bytes_eq};
ghost use Rattle.page_nodes.specs.Entries.{at};
ghost use Rattle.page_tree.specs.Documents.{parent_within};
ghost use Rattle.page_tree.specs.Pages.{nodes};
ghost use Rattle.event_loop.specs.Around.{kept};
ghost use Rattle.event_loop.specs.Kept.{listening};
ghost use Rattle.event_loop.specs.Deliveries.{IsNodeOf, leads, nearest, most, found_of, delivered_of, delivered_at, delivered};

use crate::around::Loop;
use code_units::{Memory, Text};
use page_tree::{NodeId, Page};
use std::alloc::Global;

/// An event: its type, the path of child positions from the root, and its value, if any.
#[derive(Drop)]
pub struct Event {
    pub kind: Text,
    pub path: Vec<u32>,
    pub value: Option<Text>,
}

/// Where an event went.
#[derive(Drop)]
pub enum Delivered {
    /// The widget has stopped.
    Gone,
    /// The path leads to no node.
    Miss,
    /// No node at or above the target listens.
    Silent,
    /// The node that listens, with its functions in order of listening.
    Turn {
        target: NodeId,
        at: NodeId,
        handlers: Vec<u32>,
    },
}

// The child of a node that may be there.
fn child_of(page: &Page, place: Option<NodeId>, step: u32) -> Option<NodeId>
    requires { IsNodeOf (nodes page.now) place }
    ensures child { result ≡ option_and_then (λ m. slice_get (at (nodes page.now) m).children step) place }
    ensures is_in { IsNodeOf (nodes page.now) result }
{
    page.links_agree();
    match place {
        Some(node) => page.child(node, step),
        None => None,
    }
}

// The node to which a path leads.
fn leads_to(page: &Page, root: NodeId, path: &[u32]) -> Option<NodeId>
    requires { root < length (nodes page.now) }
    ensures leads { result ≡ leads (nodes page.now) (Some root) path.now }
    ensures is_in { IsNodeOf (nodes page.now) result }
{
    let mut place = Some(root);
    'each: for step in path {
        place = child_of(page, place, *step);
    }
    place
}

// The parent of a node, none of the root.
fn parent_within(page: &Page, root: NodeId, node: NodeId) -> Option<NodeId>
    requires { node < length (nodes page.now) }
    ensures parent { result ≡ parent_within (nodes page.now) (Some root) node }
    ensures is_in { IsNodeOf (nodes page.now) result }
{
    page.links_agree();
    if node == root {
        None
    } else {
        page.parent(node)
    }
}

// The function of a handler, if it is of the type.
fn push_function(handler: &(Text, u32), kind: &Text, found: &mut Vec<u32>) -> Result<(), Memory>
    ensures { OnOk result
        (found.new.items ≡ found.old.items ++ map (λ h. h.1) (filter (λ h. bytes_eq h.0 kind.now) (handler.now ∷ []))) }
{
    if handler.0 == *kind {
        found.push(handler.1)?;
    }
    Ok(())
}

// The functions of the handlers of a type, in order.
fn functions(alloc: Global, handlers: &[(Text, u32)], kind: &Text) -> Result<Vec<u32>, Memory>
    ensures { IfOk result (λ found. found.items ≡ map (λ h. h.1) (filter (λ h. bytes_eq h.0 kind.now) handlers.now)) }
{
    let mut found = Vec::new(alloc);
    'each: for handler in handlers {
        push_function(handler, kind, &mut found)?;
    }
    Ok(found)
}

// The functions that listen to a type at a node, in order.
fn listening(alloc: Global, around: &Loop, node: NodeId, kind: &Text) -> Result<Vec<u32>, Memory>
    ensures { IfOk result (λ found. found.items ≡ listening (kept around.now node) kind.now) }
{
    functions(alloc, around.handlers(node), kind)
}

impl Loop {
    /// The nearest node that listens to a type, with its functions in order of listening: the given
    /// one or one above it, up to the root of the widget or the top of a tree without a parent.
    pub fn nearest(
        &self,
        alloc: Global,
        page: &Page,
        root: NodeId,
        node: Option<NodeId>,
        kind: &Text,
    ) -> Result<Option<(NodeId, Vec<u32>)>, Memory>
        requires { IsNodeOf (nodes page.now) node }
        ensures { IfOk result (λ found. found_of found ≡ nearest most (nodes page.now) root self.now node kind.now) }
    {
        let mut place = node;
        'up: for _ in 0..201u32 {
            let Some(here) = place else {
                return Ok(None);
            };
            let functions = listening(alloc, self, here, kind)?;
            if !functions.is_empty() {
                return Ok(Some((here, functions)));
            }
            place = parent_within(page, root, here);
        }
        Ok(None)
    }

    // Where an event goes that leads to a node.
    fn deliver_at(
        &self,
        alloc: Global,
        page: &Page,
        root: NodeId,
        target: NodeId,
        kind: &Text,
    ) -> Result<Delivered, Memory>
        requires { target < length (nodes page.now) }
        ensures { IfOk result (λ d.
            delivered_of d ≡ delivered_at target (nearest most (nodes page.now) root self.now (Some target) kind.now)) }
    {
        match self.nearest(alloc, page, root, Some(target), kind)? {
            Some((at, handlers)) => Ok(Delivered::Turn {
                target,
                at,
                handlers,
            }),
            None => Ok(Delivered::Silent),
        }
    }

    /// Where an event goes: `Gone` exactly where the widget has stopped; else `Miss` exactly where the
    /// path leads to no node; else `Silent` exactly where no node at or above it listens to the type.
    pub fn deliver(
        &self,
        alloc: Global,
        page: &Page,
        root: NodeId,
        stopped: bool,
        event: &Event,
    ) -> Result<Delivered, Memory>
        requires { root < length (nodes page.now) }
        ensures { IfOk result (λ d.
            delivered_of d ≡ delivered (nodes page.now) root self.now stopped event.now.path.items event.now.kind) }
    {
        if stopped {
            return Ok(Delivered::Gone);
        }
        match leads_to(page, root, &event.path) {
            Some(target) => self.deliver_at(alloc, page, root, target, &event.kind),
            None => Ok(Delivered::Miss),
        }
    }
}
