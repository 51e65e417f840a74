//! The arena: the rows with what holds of their links, and what moves nodes.
ghost use Rattle.std.specs.Prelude.{◌≡◌, ℕ, ◌+◌, ◌<◌, ◌≤◌, ◌≢◌, ◌==◌, List, [], ◌∷◌, length, if◌then◌else◌, Some, None, max, MatchOption, MatchResult, true, false, take, OnOk, OnErr, IfOk, slice_index, false};
ghost use Rattle.std.specs.List.{list_any};
ghost use Rattle.std.specs.List.Sorted.{IsSorted};
ghost use Rattle.std.specs.Ordering.{nat_cmp};
ghost use Rattle.page_nodes.specs.Entries.{entries, at, body, body_entry, IsSound, tree, limit, label_of};
ghost use Rattle.page_nodes.specs.Room.{room_at};
ghost use Rattle.tree_ops.specs.Labels.{is_text, with_attribute};
ghost use Rattle.tree_ops.specs.Trees.{has, is_number};
ghost use Rattle.page_nodes.specs.Copies.{taken};
ghost use Rattle.plain_tree.specs.Plains.{unplaced};
ghost use Rattle.page_nodes.specs.Adds.{Older, IsAdded};
ghost use Rattle.plain_tree.specs.Trees.{height, TextOf, End, Node};
ghost use Rattle.std.proofs.Props.{props};

use crate::copies::{element_of, plain_with};
use crate::links::{
    add_child, children_of, content_of, drop_child, is_number, owner_of, parent_of, push_node,
    reserve_children, set_attribute, set_parent, set_text, swap_child,
};
use crate::many::{hang_all, is_listed, take_all, take_children};
use crate::rows::{Content, Row};
use code_units::{Memory, Owner, Text, from_utf8_bytes};
use plain_tree::Plain;
use std::alloc::{AllocError, Global};

/// The host's `body`.
pub const BODY: u32 = 0;

// So many nodes have numbers.
const MOST: usize = 0x8000_0000;

/// All nodes of the page, each under its number.
#[derive(Drop)]
pub struct Arena {
    alloc: Global,
    rows: Vec<Row>,
    pub ghost sound: { IsSound (entries rows.items) } by { Prim.hlevel props },
}

impl Arena {
    ghost use Rattle.page_nodes.specs.Arenas.{nodes_in, room_of};
    ghost use Rattle.page_nodes.specs.Moves.{Detached, AreDetached, Detaches, IsDepth, MayLink, IsLinked, MayMoveAll, IsSwapped, IsRelabelled, ArePut, Puts, AreNodes, OthersStay, highest};

    /// The arena of `body` alone.
    pub fn new(alloc: Global) -> Result<Arena, Memory>
        ensures { IfOk result (λ arena. nodes_in arena ≡ body_entry ∷ []) }
    {
        let Ok(tag) = from_utf8_bytes(alloc, b"body") else {
            return Err(Memory);
        };
        let mut rows = Vec::new(alloc);
        let content = Content::Element(tag, Vec::new(alloc));
        push_node(&mut rows, alloc, Owner::Host, content)?;
        Ok(Arena { alloc, rows })
    }

    /// The parent of a node.
    pub fn parent(&self, node: u32) -> Option<u32>
        requires { node < length (nodes_in self.now) }
        ensures { result ≡ (at (nodes_in self.now) node).parent }
    {
        parent_of(&self.rows, node)
    }

    /// The children of a node.
    pub fn children(&self, node: u32) -> &Vec<u32>
        requires { node < length (nodes_in self.now) }
        ensures { result.now.items ≡ (at (nodes_in self.now) node).children }
    {
        children_of(&self.rows, node)
    }

    /// The number of a node's children.
    pub fn width(&self, node: u32) -> u32
        requires { node < length (nodes_in self.now) }
        ensures { result ≡ length (at (nodes_in self.now) node).children }
    {
        children_of(&self.rows, node).len() as u32
    }

    /// The owner of a node.
    pub fn owner(&self, node: u32) -> Owner
        requires { node < length (nodes_in self.now) }
        ensures { result ≡ (at (nodes_in self.now) node).owner }
    {
        owner_of(&self.rows, node)
    }

    /// What a node is.
    pub fn content(&self, node: u32) -> &Content
        requires { node < length (nodes_in self.now) }
        ensures { label_of result.now ≡ (at (nodes_in self.now) node).label }
    {
        content_of(&self.rows, node)
    }

    /// The parent of a node, unless it is `body`.
    fn parent_below_body(&self, node: u32) -> Option<u32>
        requires { node < length (nodes_in self.now) }
        ensures { MatchOption result
            ((p : ℕ) → (at (nodes_in self.now) node).parent ≡ Some p → p ≡ body)
            (λ parent. ((at (nodes_in self.now) node).parent ≡ Some parent) × (parent ≢ body)) }
    {
        match parent_of(&self.rows, node) {
            Some(parent) if parent != BODY => Some(parent),
            _ => None,
        }
    }

    /// Whether a node stands in the tree of one of these, or is one of them.
    pub fn is_in_any(&self, node: u32, tops: &[u32]) -> bool
        requires { node < length (nodes_in self.now) }
        ensures { result ≡ list_any (λ t. has node (tree (nodes_in self.now) t)) tops.now }
    {
        let mut place = node;
        'up: loop {
            if tops.contains(&place) {
                return true;
            }
            match parent_of(&self.rows, place) {
                Some(parent) => place = parent,
                None => return false,
            }
        }
    }

    /// How many nodes stand above a node and with it, `body` not counted.
    pub fn depth(&self, node: u32) -> u32
        requires { node < length (nodes_in self.now) }
        ensures { IsDepth (nodes_in self.now) node result }
    {
        if node == BODY {
            return 0;
        }
        let mut place = node;
        let mut depth = 1;
        'up: while let Some(parent) = self.parent_below_body(place) {
            place = parent;
            depth += 1;
        }
        depth
    }

    /// How many nodes stand one above the other in the tree of a node.
    pub fn height(&self, node: u32) -> u32
        requires { node < length (nodes_in self.now) }
        ensures { result ≡ height (tree (nodes_in self.now) node) }
    {
        let children = children_of(&self.rows, node);
        let mut most = 0;
        'each: for child in children {
            most = most.max(self.height(*child));
        }
        most + 1
    }

    // Whether a node is the child of another.
    fn is_child(&self, node: u32, above: Option<u32>) -> bool
        requires { node < length (nodes_in self.now) }
        ensures { result ≡ true → (p : ℕ) × (above ≡ Some p) × ((at (nodes_in self.now) node).parent ≡ Some p) }
    {
        match above {
            Some(above) => is_number(above, parent_of(&self.rows, node)),
            None => false,
        }
    }

    // The greater of a height and that of a node's tree. Where the node's parent is another, whose tree is
    // no higher, it is not measured.
    fn height_with(&self, most: u32, node: u32, last: Option<u32>) -> u32
        requires node { node < length (nodes_in self.now) }
        requires last { (p : ℕ) → last ≡ Some p → height (tree (nodes_in self.now) p) ≤ most }
        ensures { result ≡ max most (height (tree (nodes_in self.now) node)) }
    {
        if self.is_child(node, last) {
            return most;
        }
        most.max(self.height(node))
    }

    /// How many nodes stand one above the other in the highest of the trees of nodes. A node whose parent
    /// comes right before it is not measured.
    pub fn highest(&self, nodes: &[u32]) -> u32
        requires { AreNodes (nodes_in self.now) nodes.now }
        ensures { result ≡ highest (nodes_in self.now) nodes.now }
    {
        let mut most = 0;
        let mut last = None;
        'each: for node in nodes {
            most = self.height_with(most, *node, last);
            last = Some(*node);
        }
        most
    }

    // Whether a node stands in the tree of one of these, which are in order, or is one of them. Another
    // is known that does not.
    fn is_in_ordered(&self, node: u32, apart: Option<u32>, tops: &[u32]) -> bool
        requires node { node < length (nodes_in self.now) }
        requires apart { (a : ℕ) → apart ≡ Some a
            → list_any (λ t. has a (tree (nodes_in self.now) t)) tops.now ≡ false }
        requires in_order { IsSorted nat_cmp tops.now }
        ensures { result ≡ list_any (λ t. has node (tree (nodes_in self.now) t)) tops.now }
    {
        let mut place = node;
        'up: loop {
            if is_number(place, apart) {
                return false;
            }
            if is_listed(tops, place) {
                return true;
            }
            match parent_of(&self.rows, place) {
                Some(parent) => place = parent,
                None => return false,
            }
        }
    }

    /// Whether one of some nodes stands in the tree of one of these, which are in order, or is one of them.
    pub fn some_in_any(&self, nodes: &[u32], tops: &[u32]) -> bool
        requires nodes { AreNodes (nodes_in self.now) nodes.now }
        requires in_order { IsSorted nat_cmp tops.now }
        ensures { result ≡ list_any (λ n. list_any (λ t. has n (tree (nodes_in self.now) t)) tops.now) nodes.now }
    {
        let mut apart = None;
        'each: for node in nodes {
            if self.is_in_ordered(*node, apart, tops) {
                return true;
            }
            apart = parent_of(&self.rows, *node);
        }
        false
    }

    /// Takes a node from its parent. It takes no memory, and does nothing where there is none.
    pub fn detach(&mut self, node: u32)
        requires { node < length (nodes_in self.old) }
        ensures links { Detached (nodes_in self.old) (nodes_in self.new) node }
        ensures room { (t : ℕ) → room_of self.old t ≤ room_of self.new t }
    {
        if let Some(parent) = parent_of(&self.rows, node) {
            drop_child(&mut self.rows, parent, node);
            set_parent(&mut self.rows, node, None);
        }
    }

    /// Takes nodes from their parents. Each list of children that changes is gone over once. It takes
    /// no memory.
    pub fn detach_all(&mut self, nodes: Vec<u32>)
        requires { AreNodes (nodes_in self.old) nodes.items }
        ensures links { AreDetached (nodes_in self.old) (nodes_in self.new) nodes.items }
        ensures steps { Detaches (nodes_in self.old) nodes.items (nodes_in self.new) }
    {
        let mut list = nodes;
        take_all(&mut self.rows, self.alloc, &mut list);
    }

    /// Takes all children from a node. It takes no memory.
    pub fn empty(&mut self, node: u32)
        requires { node < length (nodes_in self.old) }
        ensures links { AreDetached (nodes_in self.old) (nodes_in self.new) (at (nodes_in self.old) node).children }
        ensures steps { Detaches (nodes_in self.old) (at (nodes_in self.old) node).children (nodes_in self.new) }
    {
        take_children(&mut self.rows, node);
    }

    /// Makes room for further children of a node. Nothing else changes.
    pub fn reserve(&mut self, node: u32, count: usize) -> Result<(), AllocError>
        requires { node < length (nodes_in self.old) }
        ensures links { nodes_in self.new ≡ nodes_in self.old }
        ensures room { OnOk result (count ≤ room_of self.new node) }
    {
        reserve_children(&mut self.rows, node, count)
    }

    /// Puts a node without a parent among the children of a target, which has room: before a child,
    /// or behind the last.
    pub fn link(&mut self, target: u32, next: Option<u32>, node: u32)
        requires target { target < length (nodes_in self.old) }
        requires node { node < length (nodes_in self.old) }
        requires may { MayLink (nodes_in self.old) target node }
        requires room { 1 ≤ room_of self.old target }
        ensures links { IsLinked (nodes_in self.old) (nodes_in self.new) target next node }
        ensures room { (t : ℕ) → room_of self.old t ≤ room_of self.new t + 1 }
    {
        add_child(&mut self.rows, target, next, node);
        set_parent(&mut self.rows, node, Some(target));
    }

    /// Puts nodes among the children of a target in order, each taken from where it was: before a
    /// child that is none of them, or behind the last. A refusal changes nothing.
    pub fn put_all(&mut self, target: u32, next: Option<u32>, news: &[u32]) -> Result<(), Memory>
        requires target { target < length (nodes_in self.old) }
        requires news { AreNodes (nodes_in self.old) news.now }
        requires may { MayMoveAll (nodes_in self.old) target news.now }
        requires away { (i : ℕ) → i < length news.now → is_number (slice_index news.now i) next ≡ false }
        ensures links { OnOk result (ArePut (nodes_in self.old) (nodes_in self.new) target next news.now) }
        ensures steps { OnOk result (Puts (nodes_in self.old) target next news.now (nodes_in self.new)) }
        ensures unchanged { OnErr result (nodes_in self.new ≡ nodes_in self.old) }
        ensures others { OthersStay (nodes_in self.old) (nodes_in self.new) target }
    {
        let mut list = news.to_vec(self.alloc)?;
        reserve_children(&mut self.rows, target, news.len())?;
        take_all(&mut self.rows, self.alloc, &mut list);
        hang_all(&mut self.rows, target, next, news);
        Ok(())
    }

    /// Puts a tree without a parent in the place of one under `body`, which then has none. It takes
    /// no memory.
    pub fn swap(&mut self, old: u32, new: u32)
        requires old { old < length (nodes_in self.old) }
        requires new { new < length (nodes_in self.old) }
        requires under { (at (nodes_in self.old) old).parent ≡ Some body }
        requires top { (at (nodes_in self.old) new).parent ≡ None }
        requires other { new ≢ body }
        ensures { IsSwapped (nodes_in self.old) (nodes_in self.new) old new }
    {
        swap_child(&mut self.rows, BODY, old, new);
        set_parent(&mut self.rows, new, Some(BODY));
        set_parent(&mut self.rows, old, None);
    }

    /// Sets an attribute of an element, or takes it out. A refusal changes nothing.
    pub fn set_attribute(
        &mut self,
        node: u32,
        name: &Text,
        value: Option<Text>,
    ) -> Result<(), Memory>
        requires node { node < length (nodes_in self.old) }
        requires element { is_text (at (nodes_in self.old) node).label ≡ false }
        ensures { MatchResult result
            (λ _. IsRelabelled (nodes_in self.old) (nodes_in self.new) node
            (with_attribute name.now value (at (nodes_in self.old) node).label))
            (λ _. nodes_in self.new ≡ nodes_in self.old) }
    {
        set_attribute(&mut self.rows, node, name, value)
    }

    /// Sets the text of a text node.
    pub fn set_text(&mut self, node: u32, text: Text)
        requires node { node < length (nodes_in self.old) }
        requires is_text { is_text (at (nodes_in self.old) node).label ≡ true }
        ensures { IsRelabelled (nodes_in self.old) (nodes_in self.new) node (TextOf text) }
    {
        set_text(&mut self.rows, node, text);
    }

    /// The plain tree of a node, with or without its ids.
    pub fn plain_of(&self, alloc: Global, node: u32, ids: bool) -> Result<Plain, Memory>
        requires { node < length (nodes_in self.now) }
        ensures { IfOk result (λ plain. unplaced plain ≡ taken ids (tree (nodes_in self.now) node)) }
    {
        let mut plains = Vec::new(alloc);
        let children = children_of(&self.rows, node);
        'each: for child in children {
            let plain = self.plain_of(alloc, *child, ids)?;
            plains.push(plain)?;
        }
        plain_with(alloc, content_of(&self.rows, node), ids, plains)
    }

    /// How many nodes there are.
    pub fn len(&self) -> usize
        ensures { result ≡ length (nodes_in self.now) }
    {
        self.rows.len()
    }

    // Adds a node without a parent or children.
    fn new_node(&mut self, alloc: Global, owner: Owner, content: Content) -> Result<u32, Memory>
        ensures { MatchResult result
            (λ id. IsAdded (nodes_in self.old) (nodes_in self.new) id owner (Node tt (label_of content) End End))
            (λ _. nodes_in self.new ≡ nodes_in self.old) }
    {
        let id = self.rows.len();
        if id >= MOST {
            return Err(Memory);
        }
        push_node(&mut self.rows, alloc, owner, content)?;
        Ok(id as u32)
    }

    // Puts a node without a parent behind the last child of another.
    fn hang(&mut self, target: u32, node: u32) -> Result<(), Memory>
        requires target { target < length (nodes_in self.old) }
        requires node { node < length (nodes_in self.old) }
        requires may { MayLink (nodes_in self.old) target node }
        ensures { MatchResult result
            (λ _. IsLinked (nodes_in self.old) (nodes_in self.new) target None node)
            (λ _. nodes_in self.new ≡ nodes_in self.old) }
    {
        self.reserve(target, 1)?;
        self.link(target, None, node);
        Ok(())
    }

    /// Adds a plain tree, with numbers from the next on in document order. After a refusal the older
    /// nodes are as before.
    pub fn add(&mut self, alloc: Global, owner: Owner, plain: &Plain) -> Result<u32, Memory>
        requires { height (unplaced plain.now) ≤ limit }
        ensures { MatchResult result
            (λ id. IsAdded (nodes_in self.old) (nodes_in self.new) id owner (unplaced plain.now))
            (λ _. Older (nodes_in self.old) (nodes_in self.new)) }
    {
        match plain {
            Plain::Text { text, .. } => {
                self.new_node(alloc, owner, Content::Text(text.share()?))
            }
            Plain::Element {
                tag,
                attrs,
                children,
                ..
            } => {
                let top = self.new_node(alloc, owner, element_of(alloc, tag, attrs)?)?;
                'each: for child in children {
                    let node = self.add(alloc, owner, child)?;
                    self.hang(top, node)?;
                }
                Ok(top)
            }
        }
    }

    /// Takes the nodes from a number on away, where those before it stand alone.
    pub fn truncate(&mut self, len: usize)
        requires { IsSound (take len (nodes_in self.old)) }
        ensures { nodes_in self.new ≡ take len (nodes_in self.old) }
    {
        self.rows.truncate(len);
    }
}
