//! Walks down the trees of a page.
ghost use Rattle.std.specs.Prelude.{◌≡◌, ◌<◌, [], ◌∷◌, length, slice_index_or, OnOk};
ghost use Rattle.page_tree.specs.Entries.{at};
ghost use Rattle.page_tree.specs.Pages.{nodes};
ghost use Rattle.page_tree.specs.Documents.{within, below};

use crate::marks::Marks;
use crate::nodes::{has_value, is_element, is_tagged};
use code_units::{Memory, Text};
use page_tree::{NodeId, Page};

/// Which nodes a walk takes.
#[derive(Clone, Copy)]
pub enum Wanted<'a> {
    /// The elements.
    Elements,
    /// The elements with a tag.
    Tagged(&'a Text),
    /// The elements with an `id`.
    Named(&'a Text),
    /// The nodes of a set. A second set has them and all above them.
    Among(&'a Marks, &'a Marks),
}

/// The child of a node at a place.
pub fn child_at(page: &Page, node: NodeId, place: u32) -> NodeId
    requires node { node < length (nodes page.now) }
    requires place { place < length (at (nodes page.now) node).children }
    ensures child { result ≡ slice_index_or (at (nodes page.now) node).children place result }
    ensures node { result < length (nodes page.now) }
{
    match page.child(node, place) {
        Some(child) => child,
        None => unreachable!(),
    }
}

impl Wanted<'_> {
    ghost use Rattle.query_walks.specs.Walks.{takes, TakesOf, enters, MissesNone};

    // Whether a walk takes a node.
    fn takes(&self, page: &Page, node: NodeId) -> bool
        requires { node < length (nodes page.now) }
        ensures { result ≡ takes (nodes page.now) self.now node }
    {
        match self {
            Wanted::Elements => is_element(page, node),
            Wanted::Tagged(tag) => is_tagged(page, node, tag),
            Wanted::Named(id) => is_element(page, node) && has_value(page, node, b"id", id.units()),
            Wanted::Among(found, _) => found.has(node),
        }
    }

    // Whether a walk enters the tree of a node.
    fn enters(&self, node: NodeId) -> bool
        ensures { result ≡ enters self.now node }
    {
        match self {
            Wanted::Among(_, above) => above.has(node),
            _ => true,
        }
    }

    /// Takes a node if it is wanted.
    pub fn take(&self, page: &Page, node: NodeId, found: &mut Vec<NodeId>) -> Result<(), Memory>
        requires { node < length (nodes page.now) }
        ensures { OnOk result (TakesOf (nodes page.now) self.now (node ∷ [])
            found.old.items found.new.items) }
    {
        if self.takes(page, node) {
            found.push(node)?;
        }
        Ok(())
    }

    /// Takes what is wanted of a node's children.
    pub fn collect_children(
        &self,
        page: &Page,
        node: NodeId,
        found: &mut Vec<NodeId>,
    ) -> Result<(), Memory>
        requires { node < length (nodes page.now) }
        ensures { OnOk result (TakesOf (nodes page.now) self.now (at (nodes page.now) node).children
            found.old.items found.new.items) }
    {
        'each: for place in 0..page.width(node) {
            self.take(page, child_at(page, node, place), found)?;
        }
        Ok(())
    }

    /// Takes what is wanted of a node's tree, in document order.
    pub fn collect(&self, page: &Page, node: NodeId, found: &mut Vec<NodeId>) -> Result<(), Memory>
        requires node { node < length (nodes page.now) }
        requires all { MissesNone page.now self.now }
        ensures { OnOk result (TakesOf (nodes page.now) self.now (within (nodes page.now) node)
            found.old.items found.new.items) }
    {
        if !self.enters(node) {
            return Ok(());
        }
        self.take(page, node, found)?;
        'each: for place in 0..page.width(node) {
            self.collect(page, child_at(page, node, place), found)?;
        }
        Ok(())
    }

    /// Takes what is wanted below a node, in document order.
    pub fn collect_below(
        &self,
        page: &Page,
        node: NodeId,
        found: &mut Vec<NodeId>,
    ) -> Result<(), Memory>
        requires node { node < length (nodes page.now) }
        requires all { MissesNone page.now self.now }
        ensures { OnOk result (TakesOf (nodes page.now) self.now (below (nodes page.now) node)
            found.old.items found.new.items) }
    {
        'each: for place in 0..page.width(node) {
            self.collect(page, child_at(page, node, place), found)?;
        }
        Ok(())
    }
}
