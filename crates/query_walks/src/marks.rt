//! Sets of nodes.
ghost use Rattle.std.specs.Prelude.{◌≡◌, ◌==◌, ℕ, ◌++◌, [], ◌∷◌, IfOk, OnOk, not, ◌||◌, if◌then◌else◌};
ghost use Rattle.query_grammar.specs.Finds.{has_number};
ghost use Rattle.query_walks.specs.Walks.{RiseFrom};

use code_units::Memory;
use indexmap::IndexSet;
use page_tree::NodeId;
use std::alloc::Global;
use std::collections::BTreeSet;
use std::marker::Model;

/// A set of nodes, in the order in which they came.
#[derive(Drop)]
pub struct Marks {
    set: IndexSet<NodeId>,
}

impl Model for Marks {
    ghost use Rattle.std.specs.Prelude.{List, ℕ};

    ghost Value = { List ℕ };

    ghost view = { λ m. m.set.keys };
}

impl Marks {
    /// No node.
    pub fn new(alloc: Global) -> Marks
        ensures { result ≡ [] }
    {
        Marks {
            set: IndexSet::new(alloc),
        }
    }

    /// These nodes.
    pub fn of(alloc: Global, nodes: &[NodeId]) -> Result<Marks, Memory>
        ensures { IfOk result (λ marks. (n : ℕ) → has_number marks n ≡ has_number nodes.now n) }
    {
        let mut marks = Marks::new(alloc);
        'each: for node in nodes {
            marks.add(*node)?;
        }
        Ok(marks)
    }

    /// Whether a node is in the set.
    pub fn has(&self, node: NodeId) -> bool
        ensures { result ≡ has_number self.now node }
    {
        self.set.contains(&node)
    }

    /// Puts a node into the set, and tells whether it is new.
    pub fn add(&mut self, node: NodeId) -> Result<bool, Memory>
        ensures { IfOk result (λ new. (new ≡ not (has_number self.old node))
            × (self.new ≡ (if has_number self.old node then self.old else self.old ++ node ∷ []))) }
    {
        Ok(self.set.insert(node)?)
    }
}

/// A set of nodes by their numbers.
#[derive(Drop)]
pub struct Risen {
    set: BTreeSet<NodeId>,
}

impl Model for Risen {
    ghost use Rattle.std.specs.Prelude.{List, ℕ};

    ghost Value = { List ℕ };

    ghost view = { λ r. r.set.keys };
}

impl Risen {
    /// No node.
    pub fn new(alloc: Global) -> Risen
        ensures { result ≡ [] }
    {
        Risen {
            set: BTreeSet::new(alloc),
        }
    }

    /// Puts a node into the set.
    pub fn add(&mut self, node: NodeId) -> Result<(), Memory>
        ensures { OnOk result ((n : ℕ) → has_number self.new n ≡ (n == node || has_number self.old n)) }
    {
        self.set.insert(node)?;
        Ok(())
    }

    // The nodes in the order of the set.
    fn nodes(&self, alloc: Global) -> Result<Vec<NodeId>, Memory>
        ensures { IfOk result (λ list. list.items ≡ self.now) }
    {
        Ok(self.set.iter().copied().collect(alloc)?)
    }

    /// The nodes in the order of their numbers.
    pub fn list(&self, alloc: Global) -> Result<Vec<NodeId>, Memory>
        ensures nodes { IfOk result (λ list. list.items ≡ self.now) }
        ensures rising { IfOk result (λ list. RiseFrom 0 list.items) }
    {
        let list = self.nodes(alloc)?;
        let _count = self.set.len();
        Ok(list)
    }
}
