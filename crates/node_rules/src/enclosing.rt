//! The nodes that enclose: functions, catches, loops and `switch`es.
ghost use Rattle.std.specs.Prelude.{◌≡◌, ℕ, ◌+◌, ◌-◌, ◌<◌, ◌≤◌, ◌↔◌, List, [], ◌∷◌, ◌++◌, take, vec_len, count_by, OnOk, IsTrue};
ghost use Rattle.std.specs.Str.{bytes_eq};
ghost use Rattle.js_tree.specs.Forest.{Forest};
ghost use Rattle.node_rules.specs.Binding.{IsBound, no_jumps};
ghost use Rattle.node_rules.specs.Enclosing.{count_of, one_for, IsCounted, occurs, AreKnown, env_of, jumps_of};

use code_units::{Memory, Text};
use js_tree::Part;
use std::alloc::Global;
use std::collections::BTreeMap;

/// Which jumps without a label may stand at a place.
#[derive(Clone, Copy, PartialEq, Eq, Drop)]
pub struct Jumps {
    pub breaks: bool,
    pub continues: bool,
}

/// A node that encloses: the names that it binds, and the jumps that it allows.
#[derive(Drop)]
pub struct Opened {
    pub opener: Part,
    pub names: Vec<Text>,
    pub jumps: Jumps,
}

/// The open nodes from the outside in, and how often they bind each name.
#[derive(Drop)]
pub struct Enclosing {
    pub stack: Vec<Opened>,
    pub counts: BTreeMap<Text, usize>,
}

impl Enclosing {
    pub fn new(alloc: Global) -> Enclosing
        ensures none { result.stack.items ≡ [] }
        ensures counted { IsCounted result }
    {
        Enclosing {
            stack: Vec::new(alloc),
            counts: BTreeMap::new(alloc),
        }
    }

    /// Whether an open node binds the name.
    pub fn binds(&self, name: &Text) -> bool
        requires { IsCounted self.now }
        ensures { (f : Forest) → AreKnown f self.now.stack.items
            → IsTrue result ↔ IsBound (env_of f self.now.stack.items) name.now }
    {
        self.is_counted(name)
    }

    // Whether the name is counted.
    fn is_counted(&self, name: &Text) -> bool
        requires { IsCounted self.now }
        ensures { IsTrue result ↔ (0 < occurs name.now self.now.stack.items) }
    {
        match self.counts.get(name) {
            Some(n) => *n > 0,
            None => false,
        }
    }

    /// Which jumps may stand in the innermost open node.
    pub fn jumps(&self) -> Jumps
        ensures { result ≡ jumps_of no_jumps self.now.stack.items }
    {
        let n = self.stack.len();
        if n == 0 {
            return Jumps {
                breaks: false,
                continues: false,
            };
        }
        self.stack[n - 1].jumps
    }

    /// Opens a node.
    #[tactic(auto, using(crate::proofs::Open::occurs_more))]
    pub fn enter(&mut self, opener: Part, names: Vec<Text>, jumps: Jumps) -> Result<(), Memory>
        requires { IsCounted self.old }
        ensures opened { OnOk result (self.new.stack.items
            ≡ self.old.stack.items ++ record { opener = opener; names = names; jumps = jumps } ∷ []) }
        ensures counted { OnOk result (IsCounted self.new) }
    {
        count_more(&mut self.counts, &names)?;
        self.stack.push(Opened {
            opener,
            names,
            jumps,
        })?;
        Ok(())
    }

    /// Leaves the nodes behind the first `depth`.
    pub fn leave_to(&mut self, depth: usize)
        requires { IsCounted self.old }
        ensures left { self.new.stack.items ≡ take depth self.old.stack.items }
        ensures counted { IsCounted self.new }
    {
        'leave: while self.stack.len() > depth {
            self.leave();
        }
    }

    /// Leaves the innermost node.
    #[tactic(auto, using(crate::proofs::Open::occurs_more))]
    fn leave(&mut self)
        requires { IsCounted self.old }
        ensures left { self.new.stack.items ≡ take (vec_len self.old.stack - 1) self.old.stack.items }
        ensures counted { IsCounted self.new }
    {
        if let Some(opened) = self.stack.pop() {
            count_less(&mut self.counts, &opened.names);
        }
    }
}

// Counts each name once more.
fn count_more(counts: &mut BTreeMap<Text, usize>, names: &[Text]) -> Result<(), Memory>
    ensures { OnOk result ((q : List ℕ)
        → count_of counts.new q ≡ count_of counts.old q + count_by (bytes_eq q) names.now) }
{
    'more: for name in names {
        count(counts, name)?;
    }
    Ok(())
}

// Counts a name once more.
fn count(counts: &mut BTreeMap<Text, usize>, name: &Text) -> Result<(), Memory>
    ensures { OnOk result ((q : List ℕ) → count_of counts.new q ≡ count_of counts.old q + one_for name.now q) }
{
    if let Some(n) = counts.get_mut(name) {
        *n = n.checked_add(1).ok_or(Memory)?;
        return Ok(());
    }
    counts.insert(name.share()?, 1)?;
    Ok(())
}

// Counts each name once less.
fn count_less(counts: &mut BTreeMap<Text, usize>, names: &[Text])
    requires { (q : List ℕ) → count_by (bytes_eq q) names.now ≤ count_of counts.old q }
    ensures { (q : List ℕ) → count_of counts.new q + count_by (bytes_eq q) names.now ≡ count_of counts.old q }
{
    'less: for name in names {
        uncount(counts, name);
    }
}

// Counts a name once less.
fn uncount(counts: &mut BTreeMap<Text, usize>, name: &Text)
    requires { 0 < count_of counts.old name.now }
    ensures { (q : List ℕ) → count_of counts.new q + one_for name.now q ≡ count_of counts.old q }
{
    if let Some(n) = counts.get_mut(name) {
        *n -= 1;
    }
}
