//! Changes of the page of one widget. They leave the trees of all others, and what the host has.
ghost use Rattle.std.specs.Prelude.{◌≡◌, ◌≢◌, ℕ, ◌<◌, Some, None, true, false, map, OnOk, OnErr, IfErr, ◌⊎◌};
ghost use Rattle.std.specs.List.{fold};
ghost use Rattle.page_tree.specs.declared.fault.PageFault.TheVariants as fault;
ghost use Rattle.plain_tree.specs.Trees.{TextOf};
ghost use Rattle.query_grammar.specs.Finds.{has_number};
ghost use Rattle.tree_ops.specs.Labels.{with_attribute};
ghost use Rattle.tree_ops.specs.Trees.{relabelled};
ghost use Rattle.widget_meaning.specs.Trees.{children, detached, moved, parent, tops};
ghost use Rattle.page_image.specs.Image.{owns, number, forest, HasRoot, relabel_in};
ghost use Rattle.page_image.specs.Stays.{HostStays, KeepsNodes, OthersStay};
ghost use Rattle.page_image.specs.Targets.{is_text_at, takes, may_come};

use code_units::{Memory, Text};
use page_tree::{NodeId, Page, PageFault};

/// Takes a node of a widget from its parent: it becomes a tree of its own, among the detached ones
/// by its age. It takes no memory.
pub fn detach(page: &mut Page, widget: u32, node: NodeId)
    requires home { HasRoot page.old widget }
    requires own { owns page.old widget node ≡ true }
    requires no_root { number page.old widget node ≢ 0 }
    ensures image { forest page.new widget ≡ detached (forest page.old widget) (number page.old widget node) }
    ensures kept { KeepsNodes page.old page.new }
    ensures others { OthersStay page.old page.new widget }
    ensures host { HostStays page.old page.new }
{
    page.detach(node);
}

/// Takes nodes of a widget from their parents, as `detach` does one after the other. It takes no memory.
pub fn detach_all(page: &mut Page, widget: u32, list: Vec<NodeId>)
    requires widget { widget < 32 }
    requires home { HasRoot page.old widget }
    requires own { (n : ℕ) → has_number list.items n ≡ true → owns page.old widget n ≡ true }
    requires no_root { (n : ℕ) → has_number list.items n ≡ true → number page.old widget n ≢ 0 }
    ensures image { forest page.new widget ≡
        fold detached (forest page.old widget) (map (number page.old widget) list.items) }
    ensures kept { KeepsNodes page.old page.new }
    ensures others { OthersStay page.old page.new widget }
    ensures host { HostStays page.old page.new }
{
    page.detach_all(list);
}

/// Takes all children from a node of a widget: they become trees of their own. It takes no memory.
pub fn empty(page: &mut Page, widget: u32, node: NodeId)
    requires home { HasRoot page.old widget }
    requires own { owns page.old widget node ≡ true }
    ensures image { forest page.new widget ≡ fold detached (forest page.old widget)
        (tops (children (number page.old widget node) (forest page.old widget))) }
    ensures kept { KeepsNodes page.old page.new }
    ensures others { OthersStay page.old page.new widget }
    ensures host { HostStays page.old page.new }
{
    page.empty(node);
}

/// Gives an element of a widget an attribute, in its place or else last, or takes it out.
pub fn set_attr(
    page: &mut Page,
    widget: u32,
    node: NodeId,
    name: &Text,
    value: Option<Text>,
) -> Result<(), Memory>
    requires home { HasRoot page.old widget }
    requires own { owns page.old widget node ≡ true }
    requires element { is_text_at (forest page.old widget) (number page.old widget node) ≡ false }
    ensures image { OnOk result (forest page.new widget ≡
        relabel_in (with_attribute name.now value) (forest page.old widget) (number page.old widget node)) }
    ensures unchanged { OnErr result (forest page.new widget ≡ forest page.old widget) }
    ensures kept { KeepsNodes page.old page.new }
    ensures others { OthersStay page.old page.new widget }
    ensures host { HostStays page.old page.new }
{
    page.set_attr(node, name, value)
}

/// Gives a text node of a widget another text. It takes no memory.
pub fn set_text(page: &mut Page, widget: u32, node: NodeId, text: Text)
    requires home { HasRoot page.old widget }
    requires own { owns page.old widget node ≡ true }
    requires is_text { is_text_at (forest page.old widget) (number page.old widget node) ≡ true }
    ensures image { forest page.new widget ≡
        relabelled (number page.old widget node) (TextOf text) (forest page.old widget) }
    ensures kept { KeepsNodes page.old page.new }
    ensures others { OthersStay page.old page.new widget }
    ensures host { HostStays page.old page.new }
{
    page.set_text(node, text);
}

/// Puts nodes of a widget behind the last child of a target, in order, each taken from where it was.
/// But for want of memory it is refused exactly where the target does not take them.
pub fn append(
    page: &mut Page,
    widget: u32,
    target: NodeId,
    news: &[NodeId],
) -> Result<(), PageFault>
    requires home { HasRoot page.old widget }
    requires target { owns page.old widget target ≡ true }
    requires news { (n : ℕ) → has_number news.now n ≡ true → owns page.old widget n ≡ true }
    ensures image { OnOk result (forest page.new widget ≡
        fold (moved (number page.old widget target) None) (forest page.old widget)
        (map (number page.old widget) news.now)) }
    ensures allowed { OnOk result
        (takes (forest page.old widget) (map (number page.old widget) news.now) (number page.old widget target)
        ≡ true) }
    ensures refused { IfErr result (λ f. (f ≡ fault.Memory) ⊎
        (takes (forest page.old widget) (map (number page.old widget) news.now) (number page.old widget target)
        ≡ false)) }
    ensures unchanged { OnErr result (forest page.new widget ≡ forest page.old widget) }
    ensures kept { KeepsNodes page.old page.new }
    ensures others { OthersStay page.old page.new widget }
    ensures host { HostStays page.old page.new }
{
    page.append(target, news)
}

/// Puts nodes of a widget in the place of another of its nodes, which then has no parent. But for
/// want of memory it is refused exactly where they may not come there.
pub fn replace(page: &mut Page, widget: u32, node: NodeId, news: &[NodeId]) -> Result<(), PageFault>
    requires home { HasRoot page.old widget }
    requires own { owns page.old widget node ≡ true }
    requires news { (n : ℕ) → has_number news.now n ≡ true → owns page.old widget n ≡ true }
    ensures image { OnOk result ((p : ℕ) → parent (number page.old widget node) (forest page.old widget) ≡ Some p →
        forest page.new widget ≡ detached
        (fold (moved p (Some (number page.old widget node))) (forest page.old widget)
        (map (number page.old widget) news.now))
        (number page.old widget node)) }
    ensures allowed { OnOk result
        (may_come (forest page.old widget) (map (number page.old widget) news.now) (number page.old widget node)
        ≡ true) }
    ensures refused { IfErr result (λ f. (f ≡ fault.Memory) ⊎
        (may_come (forest page.old widget) (map (number page.old widget) news.now) (number page.old widget node)
        ≡ false)) }
    ensures unchanged { OnErr result (forest page.new widget ≡ forest page.old widget) }
    ensures kept { KeepsNodes page.old page.new }
    ensures others { OthersStay page.old page.new widget }
    ensures host { HostStays page.old page.new }
{
    page.replace(node, news)
}
