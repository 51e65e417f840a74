//! The page: the arena with the root of each owner.
ghost use Rattle.std.specs.Prelude.{◌≡◌, ◌≢◌, ℕ, ◌+◌, ◌<◌, ◌≤◌, Some, None, true, [], ◌∷◌, IfOk, length, slice_get, option_copied, false, slice_index, slice_set, replicate, MatchBool, MatchResult, OnOk, OnErr, IfErr, Result, Ok, Err};
ghost use Rattle.code_units.specs.declared.owner.Owner.TheVariants as owner;
ghost use Rattle.page_nodes.specs.Owners.{is_owner, same_owner, root_in};
ghost use Rattle.page_nodes.specs.Entries.{at, body, body_entry, tree, label_of, listed, distinct, limit};
ghost use Rattle.tree_ops.specs.Labels.{is_leaf, is_text, tag_of, text_of, attribute_of, with_attribute};
ghost use Rattle.code_units.specs.declared.owner.Owner.{Owner};
ghost use Rattle.tree_ops.specs.Trees.{has, is_number};
ghost use Rattle.page_nodes.specs.Moves.{Detached, AreDetached, Detaches, IsDepth, ArePut, Puts, IsLinked, IsSwapped, IsRelabelled, AreNodes, OthersStay, OthersOfAllStay};
ghost use Rattle.plain_tree.specs.Trees.{TextOf, unmarked, height};
ghost use Rattle.plain_tree.specs.Plains.{unplaced};
ghost use Rattle.page_tree.specs.Counts.{IsCounted, count_of, most_of};
ghost use Rattle.page_nodes.specs.Adds.{IsAdded, OlderStay};
ghost use Rattle.page_nodes.specs.Arenas.{nodes_in};
ghost use Rattle.page_nodes.specs.Ids.{with_id};
ghost use Rattle.page_nodes.specs.Index.{IsIndex};
ghost use Rattle.page_tree.specs.Documents.{document};
ghost use Rattle.page_tree.specs.Roots.{IsRooted};
ghost use Rattle.std.specs.List.Sorted.{IsPermutation, IsSorted};
ghost use Rattle.std.specs.Ordering.{nat_cmp};
ghost use Rattle.std.proofs.Props.{props};

use crate::fault::PageFault;
use code_units::{Memory, Owner, Text};
use keyed_names::Keys;
use page_nodes::{
    Arena, BODY, Content, Ids, OWNERS, content, index, is_low, is_number, room_after, same_owner,
    slot_of,
};
use plain_tree::{Plain, is_void};
use std::alloc::Global;

/// The number of a node.
pub type NodeId = u32;

// So many nodes may stand one above the other, `body` not counted.
const LIMIT: u32 = 201;

/// The one page.
#[derive(Drop)]
pub struct Page {
    arena: Arena,
    roots: [Option<u32>; OWNERS],
    made: [u32; OWNERS],
    ids: Ids,
    ghost rooted: { IsRooted (nodes_in arena) roots } by { Prim.hlevel props },
    ghost counted: { IsCounted (nodes_in arena) made } by { Prim.hlevel props },
    ghost indexed: { IsIndex (nodes_in arena) ids } by { Prim.hlevel props },
}

// No widget has a root, and that of the host is `body`.
fn first_roots() -> [Option<u32>; OWNERS]
    ensures { result ≡ slice_set (replicate 33 None) 32 (Some body) }
{
    let mut roots = [None; OWNERS];
    roots[OWNERS - 1] = Some(BODY);
    roots
}

// The host has made `body`.
fn first_counts() -> [u32; OWNERS]
    ensures { result ≡ slice_set (replicate 33 0) 32 1 }
{
    let mut made = [0; OWNERS];
    made[OWNERS - 1] = 1;
    made
}

// The most nodes that an owner may make.
fn most_of(owner: Owner) -> u32
    ensures { result ≡ most_of owner }
{
    match owner {
        Owner::Host => 300_000,
        Owner::Widget(_) => 16_384,
    }
}

// Whether a node takes no children: a text node or a void element.
fn is_leaf(content: &Content) -> bool
    ensures { result ≡ is_leaf (label_of content.now) }
{
    match content {
        Content::Text(_) => true,
        Content::Element(tag, _) => is_void(tag),
    }
}

impl Page {
    ghost use Rattle.page_tree.specs.Pages.{nodes, root, AreNoRoots, IsInside, IsNotInside, IsLow, IsTooDeep, SomeNode, IsOwn, IsNotOwn, IsOpen, IsNotOpen, MayNotPutAll, MayPutAll, RefusesAll, RefusesPut, MayReplace, RefusesReplaceFirst, RefusesReplace, Replaces, ReplaceSteps, HasNoRoot, MayBeRoot, root_after, IsReplaced, MayAdd, RefusesAdd, RefusesCopy, copy_of, HasHostRoom, SameRoots, BecomesRoot, IsRoot};

    /// The page of the host's `body` alone. Its table of ids hashes by these keys.
    pub fn new(alloc: Global, keys: Keys) -> Result<Page, Memory>
        ensures nodes { IfOk result (λ page. nodes page ≡ body_entry ∷ []) }
        ensures roots { IfOk result (λ page. (w : ℕ) → w < 32 → root page (owner.Widget w) ≡ None) }
        ensures host { IfOk result (λ page. root page owner.Host ≡ Some body) }
    {
        let arena = Arena::new(alloc)?;
        let ids = Ids::new(alloc, keys)?;
        Ok(Page {
            arena,
            roots: first_roots(),
            made: first_counts(),
            ids,
        })
    }

    /// The keys by which its table of ids hashes, for tables of other texts that strangers choose.
    pub fn keys(&self) -> Keys {
        self.ids.keys()
    }

    /// A law: the links from nodes to their children and to their parents agree, and what is below a
    /// node has its owner, but under `body`. No node is below itself, and no chain of links that does
    /// not begin at `body` is longer than 200. A root is its owner's and stands under `body` or has
    /// no parent; of a widget nothing but its root stands under `body`.
    pub fn links_agree(&self)
        ensures down { (n c : ℕ) → listed c (at (nodes self.now) n).children ≡ true →
            (at (nodes self.now) c).parent ≡ Some n }
        ensures upward { (n p : ℕ) → (at (nodes self.now) n).parent ≡ Some p →
            listed n (at (nodes self.now) p).children ≡ true }
        ensures once { (n : ℕ) → distinct (at (nodes self.now) n).children ≡ true }
        ensures owned { (n p : ℕ) → (at (nodes self.now) n).parent ≡ Some p → p ≢ body →
            (at (nodes self.now) n).owner ≡ (at (nodes self.now) p).owner }
        ensures apart { (n p : ℕ) → (at (nodes self.now) n).parent ≡ Some p →
            has p (tree (nodes self.now) n) ≡ false }
        ensures low { (n : ℕ) → n ≢ body → height (tree (nodes self.now) n) ≤ limit }
        ensures roots { (o : Owner) (r : ℕ) → is_owner o ≡ true → root self.now o ≡ Some r →
            IsRoot (nodes self.now) o r }
        ensures under { (n : ℕ) → (at (nodes self.now) n).parent ≡ Some body →
            (at (nodes self.now) n).owner ≢ owner.Host →
            root self.now (at (nodes self.now) n).owner ≡ Some n }
    {
        let _arena = &self.arena;
    }

    /// A law: in the document of an owner each node stands once.
    pub fn nodes_stand_once(&self, owner: Owner)
        requires { is_owner owner ≡ true }
        ensures { distinct (document (nodes self.now) (root self.now owner) owner) ≡ true }
    {
        let _arena = &self.arena;
    }

    /// The parent of a node.
    pub fn parent(&self, node: NodeId) -> Option<NodeId>
        requires { node < length (nodes self.now) }
        ensures { result ≡ (at (nodes self.now) node).parent }
    {
        self.arena.parent(node)
    }

    /// The number of a node's children.
    pub fn width(&self, node: NodeId) -> u32
        requires { node < length (nodes self.now) }
        ensures { result ≡ length (at (nodes self.now) node).children }
    {
        self.arena.width(node)
    }

    /// The child of a node at a place, from 0.
    pub fn child(&self, node: NodeId, place: u32) -> Option<NodeId>
        requires { node < length (nodes self.now) }
        ensures { result ≡ slice_get (at (nodes self.now) node).children place }
    {
        self.arena.children(node).get(place as usize).copied()
    }

    /// The owner of a node.
    pub fn owner(&self, node: NodeId) -> Owner
        requires { node < length (nodes self.now) }
        ensures { result ≡ (at (nodes self.now) node).owner }
    {
        self.arena.owner(node)
    }

    /// How many nodes stand above a node and with it, `body` not counted.
    pub fn depth(&self, node: NodeId) -> u32
        requires { node < length (nodes self.now) }
        ensures { IsDepth (nodes self.now) node result }
    {
        self.arena.depth(node)
    }

    /// The root of an owner. That of the host is `body`.
    pub fn root_of(&self, owner: Owner) -> Option<NodeId>
        requires { is_owner owner ≡ true }
        ensures { result ≡ root self.now owner }
    {
        self.roots[slot_of(owner)]
    }

    // Whether a node is its owner's root.
    fn is_root(&self, node: NodeId) -> bool
        requires { node < length (nodes self.now) }
        ensures { result ≡ is_number node (root self.now (at (nodes self.now) node).owner) }
    {
        is_number(node, self.root_of(self.arena.owner(node)))
    }

    /// Takes a node that is no root from its parent. It takes no memory, and does nothing where
    /// there is none.
    pub fn detach(&mut self, node: NodeId)
        requires node { node < length (nodes self.old) }
        requires no_root { root self.old (at (nodes self.old) node).owner ≢ Some node }
        ensures done { Detached (nodes self.old) (nodes self.new) node }
        ensures others { OthersStay (nodes self.old) (nodes self.new) node }
        ensures roots { SameRoots self.old self.new }
    {
        self.arena.detach(node);
    }

    /// Takes nodes that are no roots from their parents, as `detach` does one after the other, but
    /// each list of children that changes is gone over once. It takes no memory.
    pub fn detach_all(&mut self, list: Vec<NodeId>)
        requires list { AreNodes (nodes self.old) list.items }
        requires no_root { AreNoRoots self.old list.items }
        ensures done { AreDetached (nodes self.old) (nodes self.new) list.items }
        ensures steps { Detaches (nodes self.old) list.items (nodes self.new) }
        ensures others { OthersOfAllStay (nodes self.old) (nodes self.new) list.items }
        ensures roots { SameRoots self.old self.new }
    {
        self.arena.detach_all(list);
    }

    /// Takes all children from a node other than `body`, as `detach` does one after the other, in the
    /// time of going over them once. It takes no memory.
    pub fn empty(&mut self, node: NodeId)
        requires node { node < length (nodes self.old) }
        requires below { node ≢ body }
        ensures done { AreDetached (nodes self.old) (nodes self.new) (at (nodes self.old) node).children }
        ensures steps { Detaches (nodes self.old) (at (nodes self.old) node).children (nodes self.new) }
        ensures others { OthersStay (nodes self.old) (nodes self.new) node }
        ensures roots { SameRoots self.old self.new }
    {
        self.arena.empty(node);
    }

    // Whether a node has an owner, and is not its root.
    fn is_own(&self, owner: Owner, node: NodeId) -> bool
        requires { node < length (nodes self.now) }
        ensures { MatchBool result
            (IsOwn (nodes self.now) (root self.now) owner node)
            (IsNotOwn (nodes self.now) (root self.now) owner node) }
    {
        same_owner(self.arena.owner(node), owner) && !self.is_root(node)
    }

    // Whether all nodes have an owner, and none is its root.
    fn are_own(&self, owner: Owner, news: &[NodeId]) -> bool
        requires { AreNodes (nodes self.now) news.now }
        ensures { MatchBool result
            ((i : ℕ) → i < length news.now → IsOwn (nodes self.now) (root self.now) owner (slice_index news.now i))
            (SomeNode news.now (IsNotOwn (nodes self.now) (root self.now) owner)) }
    {
        'each: for node in news {
            if !self.is_own(owner, *node) {
                return false;
            }
        }
        true
    }

    // Whether none of the nodes is the target or above it, and each has its owner and is no root. The
    // way up from the target is gone once.
    fn are_inside(&self, target: NodeId, news: &[NodeId]) -> bool
        requires target { target < length (nodes self.now) }
        requires news { AreNodes (nodes self.now) news.now }
        ensures { MatchBool result
            ((i : ℕ) → i < length news.now →
            IsInside (nodes self.now) (root self.now) target (slice_index news.now i))
            (SomeNode news.now (IsNotInside (nodes self.now) (root self.now) target)) }
    {
        if self.arena.is_in_any(target, news) {
            return false;
        }
        self.are_own(self.arena.owner(target), news)
    }

    // Whether a target takes children, and trees so high become not too deep under it.
    fn opens(&self, target: NodeId, height: u32) -> bool
        requires target { target < length (nodes self.now) }
        requires height { height ≤ 202 }
        ensures { MatchBool result
            (IsOpen (nodes self.now) target height)
            (IsNotOpen (nodes self.now) target height) }
    {
        if is_leaf(self.arena.content(target)) {
            return false;
        }
        if self.arena.depth(target) + height > LIMIT {
            return false;
        }
        true
    }

    // Whether no node becomes too deep under a target. None of the nodes is `body`.
    fn are_low(&self, target: NodeId, news: &[NodeId]) -> bool
        requires target { target < length (nodes self.now) }
        requires news { AreNodes (nodes self.now) news.now }
        requires other { (i : ℕ) → i < length news.now → slice_index news.now i ≢ body }
        ensures { MatchBool result
            ((i : ℕ) → i < length news.now → IsLow (nodes self.now) target (slice_index news.now i))
            (SomeNode news.now (IsTooDeep (nodes self.now) target)) }
    {
        if self.arena.depth(target) + self.arena.highest(news) > LIMIT {
            return false;
        }
        true
    }

    /// Whether `append` may put nodes under a target. It answers as `append` does, but for want of
    /// memory, and takes none.
    pub fn may_append(&self, target: NodeId, news: &[NodeId]) -> Result<(), PageFault>
        requires target { target < length (nodes self.now) }
        requires news { AreNodes (nodes self.now) news.now }
        ensures { MatchResult result
            (λ _. MayPutAll (nodes self.now) (root self.now) target news.now)
            (RefusesAll (nodes self.now) (root self.now) target news.now) }
    {
        if is_leaf(self.arena.content(target)) || !self.are_inside(target, news) {
            return Err(PageFault::NotInside);
        }
        if !self.are_low(target, news) {
            return Err(PageFault::TooDeep);
        }
        Ok(())
    }

    // Whether all targets take children, and trees so high become not too deep under them.
    fn all_open(&self, targets: &[NodeId], height: u32) -> bool
        requires targets { AreNodes (nodes self.now) targets.now }
        requires height { height ≤ 202 }
        ensures { MatchBool result
            ((j : ℕ) → j < length targets.now → IsOpen (nodes self.now) (slice_index targets.now j) height)
            (SomeNode targets.now (λ t. IsNotOpen (nodes self.now) t height)) }
    {
        'each: for target in targets {
            if !self.opens(*target, height) {
                return false;
            }
        }
        true
    }

    /// Whether `append` may put nodes under each of several targets of their owner, as `may_append` says it of
    /// one. The nodes are handed over a second time in order. No node is measured for each target anew.
    pub fn may_append_to(
        &self,
        owner: Owner,
        targets: &[NodeId],
        news: &[NodeId],
        in_order: &[NodeId],
    ) -> bool
        requires targets { AreNodes (nodes self.now) targets.now }
        requires owned { (j : ℕ) → j < length targets.now
            → (at (nodes self.now) (slice_index targets.now j)).owner ≡ owner }
        requires news { AreNodes (nodes self.now) news.now }
        requires in_order { IsSorted nat_cmp in_order.now }
        requires same { IsPermutation news.now in_order.now }
        ensures { MatchBool result
            ((j : ℕ) → j < length targets.now
            → MayPutAll (nodes self.now) (root self.now) (slice_index targets.now j) news.now)
            (SomeNode targets.now (MayNotPutAll (nodes self.now) (root self.now) news.now)) }
    {
        if targets.is_empty() {
            return true;
        }
        if !self.are_own(owner, news) {
            return false;
        }
        if self.arena.some_in_any(targets, in_order) {
            return false;
        }
        self.all_open(targets, self.arena.highest(news))
    }

    /// Puts nodes behind the last child of a target, in order, each taken from where it was.
    /// `NotInside` comes exactly where the target is a text node or a void element, or one of the
    /// nodes has another owner than the target, is a root or `body`, or is the target or above it;
    /// else `TooDeep` exactly where a node would have over 200 nodes above it, with the trees of the
    /// nodes as they were before the call.
    pub fn append(&mut self, target: NodeId, news: &[NodeId]) -> Result<(), PageFault>
        requires target { target < length (nodes self.old) }
        requires news { AreNodes (nodes self.old) news.now }
        ensures allowed { OnOk result (MayPutAll (nodes self.old) (root self.old) target news.now) }
        ensures done { OnOk result (ArePut (nodes self.old) (nodes self.new) target None news.now) }
        ensures steps { OnOk result (Puts (nodes self.old) target None news.now (nodes self.new)) }
        ensures refused { IfErr result (RefusesPut (nodes self.old) (root self.old) target news.now) }
        ensures unchanged { OnErr result (nodes self.new ≡ nodes self.old) }
        ensures others { OthersStay (nodes self.old) (nodes self.new) target }
        ensures roots { SameRoots self.old self.new }
    {
        self.may_append(target, news)?;
        self.arena.put_all(target, None, news)?;
        Ok(())
    }

    // The parent under which nodes may be put in the place of a node.
    fn may_replace(&self, node: NodeId, news: &[NodeId]) -> Result<NodeId, PageFault>
        requires node { node < length (nodes self.now) }
        requires news { AreNodes (nodes self.now) news.now }
        ensures { MatchResult result
            (λ t. MayReplace (nodes self.now) (root self.now) t node news.now)
            (RefusesReplaceFirst (nodes self.now) (root self.now) node news.now) }
    {
        if self.is_root(node) || news.contains(&node) {
            return Err(PageFault::NotInside);
        }
        let Some(parent) = self.arena.parent(node) else {
            return Err(PageFault::NotInside);
        };
        self.may_append(parent, news)?;
        Ok(parent)
    }

    /// Puts nodes in the place of a node, in order, each taken from where it was; the node then has
    /// no parent. `NotInside` comes exactly where the node is a root, has no parent or is one of the
    /// nodes, or these may not be appended to its parent; else `TooDeep` as for `append`.
    pub fn replace(&mut self, node: NodeId, news: &[NodeId]) -> Result<(), PageFault>
        requires node { node < length (nodes self.old) }
        requires news { AreNodes (nodes self.old) news.now }
        ensures done { OnOk result (Replaces (nodes self.old) (nodes self.new) (root self.old) node news.now) }
        ensures steps { OnOk result (ReplaceSteps (nodes self.old) (nodes self.new) node news.now) }
        ensures refused { IfErr result (RefusesReplace (nodes self.old) (root self.old) node news.now) }
        ensures unchanged { OnErr result (nodes self.new ≡ nodes self.old) }
        ensures others { OthersStay (nodes self.old) (nodes self.new) node }
        ensures roots { SameRoots self.old self.new }
    {
        let target = self.may_replace(node, news)?;
        self.arena.put_all(target, Some(node), news)?;
        self.arena.detach(node);
        Ok(())
    }

    // Makes a node the root of its owner, where that is a widget.
    fn set_root(roots: &mut [Option<u32>; OWNERS], owner: Owner, node: NodeId)
        requires { is_owner owner ≡ true }
        ensures { (o : Owner) → is_owner o ≡ true →
            root_in roots.new o ≡ root_after node owner (root_in roots.old) o }
    {
        if let Owner::Widget(w) = owner {
            roots[w as usize] = Some(node);
        }
    }

    /// Puts a tree without a parent behind the last child of `body`: one of the host, or of a widget
    /// that has no root yet, whose root it becomes.
    pub fn adopt(&mut self, node: NodeId) -> Result<(), Memory>
        requires node { node < length (nodes self.old) }
        requires other { node ≢ body }
        requires top { (at (nodes self.old) node).parent ≡ None }
        requires free { HasNoRoot self.old (at (nodes self.old) node).owner }
        ensures done { OnOk result (IsLinked (nodes self.old) (nodes self.new) body None node) }
        ensures becomes { OnOk result (BecomesRoot self.old self.new node) }
        ensures unchanged { OnErr result (nodes self.new ≡ nodes self.old) }
        ensures others { OthersStay (nodes self.old) (nodes self.new) node }
        ensures same_roots { OnErr result (SameRoots self.old self.new) }
    {
        self.arena.reserve(BODY, 1)?;
        self.arena.link(BODY, None, node);
        Page::set_root(&mut self.roots, self.arena.owner(node), node);
        Ok(())
    }

    /// Makes a tree without a parent the root of its owner, a widget that has no other. It stands under
    /// nothing yet.
    pub fn make_root(&mut self, node: NodeId)
        requires node { node < length (nodes self.old) }
        requires top { (at (nodes self.old) node).parent ≡ None }
        requires free { MayBeRoot self.old node }
        ensures same { nodes self.new ≡ nodes self.old }
        ensures becomes { BecomesRoot self.old self.new node }
    {
        Page::set_root(&mut self.roots, self.arena.owner(node), node);
    }

    /// Puts a tree without a parent in the place of a child of `body`, which then has no parent: a tree of
    /// the host, or one of a widget that has no other root, whose root it becomes. It takes no memory.
    pub fn swap_root(&mut self, old: NodeId, new: NodeId)
        requires old { old < length (nodes self.old) }
        requires new { new < length (nodes self.old) }
        requires other { new ≢ body }
        requires under { (at (nodes self.old) old).parent ≡ Some body }
        requires top { (at (nodes self.old) new).parent ≡ None }
        requires free { MayBeRoot self.old new }
        ensures done { IsSwapped (nodes self.old) (nodes self.new) old new }
        ensures others { OthersStay (nodes self.old) (nodes self.new) old }
        ensures becomes { BecomesRoot self.old self.new new }
    {
        self.arena.swap(old, new);
        Page::set_root(&mut self.roots, self.arena.owner(new), new);
    }

    /// The children of a node.
    pub fn children(&self, node: NodeId) -> &[NodeId]
        requires { node < length (nodes self.now) }
        ensures { result.now ≡ (at (nodes self.now) node).children }
    {
        self.arena.children(node)
    }

    /// What a node is: an element with its tag and its attributes, or a text.
    pub fn content(&self, node: NodeId) -> &Content
        requires { node < length (nodes self.now) }
        ensures { label_of result.now ≡ (at (nodes self.now) node).label }
    {
        self.arena.content(node)
    }

    /// The tag of an element, none exactly for a text node.
    pub fn tag(&self, node: NodeId) -> Option<&Text>
        requires { node < length (nodes self.now) }
        ensures { option_copied result ≡ tag_of (at (nodes self.now) node).label }
    {
        content::tag_of(self.arena.content(node))
    }

    /// The text of a text node, none exactly for an element.
    pub fn text(&self, node: NodeId) -> Option<&Text>
        requires { node < length (nodes self.now) }
        ensures { option_copied result ≡ text_of (at (nodes self.now) node).label }
    {
        content::text_of(self.arena.content(node))
    }

    /// The value of an attribute, none exactly where the node has none of that name.
    pub fn attr(&self, node: NodeId, name: &[u16]) -> Option<&Text>
        requires { node < length (nodes self.now) }
        ensures { option_copied result ≡ attribute_of name.now (at (nodes self.now) node).label }
    {
        content::attribute_of(self.arena.content(node), name)
    }

    /// The value of an attribute whose name is an ASCII word, none exactly where the node has none of
    /// that name.
    pub fn attr_of_word(&self, node: NodeId, word: &[u8]) -> Option<&Text>
        requires { node < length (nodes self.now) }
        ensures { option_copied result ≡ attribute_of word.now (at (nodes self.now) node).label }
    {
        content::attribute_of_word(self.arena.content(node), word)
    }

    /// Gives an element an attribute: in its place, or else last; or takes it out.
    pub fn set_attr(&mut self, node: NodeId, name: &Text, value: Option<Text>) -> Result<(), Memory>
        requires node { node < length (nodes self.old) }
        requires element { is_text (at (nodes self.old) node).label ≡ false }
        ensures done { OnOk result (IsRelabelled (nodes self.old) (nodes self.new) node
            (with_attribute name.now value (at (nodes self.old) node).label)) }
        ensures unchanged { OnErr result (nodes self.new ≡ nodes self.old) }
        ensures others { OthersStay (nodes self.old) (nodes self.new) node }
        ensures roots { SameRoots self.old self.new }
    {
        index::set_attribute(&mut self.arena, &mut self.ids, node, name, value)
    }

    /// Gives a text node another text. It takes no memory.
    pub fn set_text(&mut self, node: NodeId, text: Text)
        requires node { node < length (nodes self.old) }
        requires is_text { is_text (at (nodes self.old) node).label ≡ true }
        ensures done { IsRelabelled (nodes self.old) (nodes self.new) node (TextOf text) }
        ensures others { OthersStay (nodes self.old) (nodes self.new) node }
        ensures roots { SameRoots self.old self.new }
    {
        self.arena.set_text(node, text);
    }

    /// The nodes of an owner with an `id`, in the order of their birth, also those without a parent.
    /// It takes no memory.
    pub fn with_id(&self, owner: Owner, id: &Text) -> &[NodeId]
        requires { is_owner owner ≡ true }
        ensures { result.now ≡ with_id (nodes self.now) owner id.now }
    {
        self.ids.get(slot_of(owner), id)
    }

    /// How many nodes an owner has made: a widget 16,384 at most.
    pub fn made(&self, owner: Owner) -> u32
        requires { is_owner owner ≡ true }
        ensures exact { result ≡ count_of owner (nodes self.now) }
        ensures few { result ≤ most_of owner }
    {
        self.made[slot_of(owner)]
    }

    /// The plain tree of a node.
    pub fn plain_of(&self, alloc: Global, node: NodeId) -> Result<Plain, Memory>
        requires { node < length (nodes self.now) }
        ensures { IfOk result (λ plain. unplaced plain ≡ unmarked (tree (nodes self.now) node)) }
    {
        self.arena.plain_of(alloc, node, true)
    }

    /// Adds a plain tree of an owner as a tree without a parent. `TooDeep` comes exactly where a node
    /// has over 200 nodes above it; else `Nodes` exactly where the widget's nodes pass 16,384.
    pub fn add(&mut self, alloc: Global, owner: Owner, plain: &Plain) -> Result<NodeId, PageFault>
        requires owner { is_owner owner ≡ true }
        requires host { HasHostRoom (nodes self.old) owner (unplaced plain.now) }
        ensures allowed { OnOk result (MayAdd (nodes self.old) owner (unplaced plain.now)) }
        ensures done { IfOk result (λ id. IsAdded (nodes self.old) (nodes self.new) id owner (unplaced plain.now)) }
        ensures refused { IfErr result (RefusesAdd (nodes self.old) owner (unplaced plain.now)) }
        ensures unchanged { OnErr result (nodes self.new ≡ nodes self.old) }
        ensures others { OlderStay (nodes self.old) (nodes self.new) }
        ensures roots { SameRoots self.old self.new }
    {
        if !is_low(plain, LIMIT) {
            return Err(PageFault::TooDeep);
        }
        let kept = self.made[slot_of(owner)];
        let Some(left) = room_after(plain, most_of(owner) - kept) else {
            return Err(PageFault::Nodes { kept });
        };
        let id = index::add(&mut self.arena, &mut self.ids, alloc, owner, plain)?;
        self.made[slot_of(owner)] = most_of(owner) - left;
        Ok(id)
    }

    /// Adds a copy of a widget's node, with all below it and without ids, as a tree without a parent.
    /// `Nodes` comes exactly where the widget's nodes pass 16,384.
    pub fn copy(&mut self, alloc: Global, node: NodeId) -> Result<NodeId, PageFault>
        requires node { node < length (nodes self.old) }
        requires widget { same_owner (at (nodes self.old) node).owner owner.Host ≡ false }
        ensures allowed { OnOk result
            (MayAdd (nodes self.old) (at (nodes self.old) node).owner (copy_of (nodes self.old) node)) }
        ensures done { IfOk result (λ id.
            IsAdded (nodes self.old) (nodes self.new) id (at (nodes self.old) node).owner
            (copy_of (nodes self.old) node)) }
        ensures refused { IfErr result
            (RefusesCopy (nodes self.old) (at (nodes self.old) node).owner (copy_of (nodes self.old) node)) }
        ensures unchanged { OnErr result (nodes self.new ≡ nodes self.old) }
        ensures others { OlderStay (nodes self.old) (nodes self.new) }
        ensures roots { SameRoots self.old self.new }
    {
        let owner = self.arena.owner(node);
        let plain = self.arena.plain_of(alloc, node, false)?;
        self.add(alloc, owner, &plain)
    }
}
