//! Queries on the page as one of its widgets has it: what they find, in its own numbers, is what the meaning finds.
ghost use Rattle.std.specs.Prelude.{◌≡◌, ℕ, ◌<◌, map, true, IfOk};
ghost use Rattle.query_grammar.specs.Finds.{has_number, passes};
ghost use Rattle.query_grammar.specs.Renumbering.{renumbered};
ghost use Rattle.widget_meaning.specs.OwnState.{State};
ghost use Rattle.widget_meaning.specs.PageForms.{look};
ghost use Rattle.widget_meaning.specs.Queries.{finds};
ghost use Rattle.page_image.specs.Held.{OptionIn};
ghost use Rattle.page_image.specs.Image.{owns, number, forest};

use code_units::Memory;
use page_tree::{NodeId, Page};
use query_lang::{Filter, Query};
use std::alloc::Global;

/// What a query finds from nodes of a widget, which has the focus at this node or nowhere: in
/// document order and without repeats.
pub fn find(
    alloc: Global,
    page: &Page,
    widget: u32,
    focus: Option<NodeId>,
    starts: &[NodeId],
    query: &Query,
) -> Result<Vec<NodeId>, Memory>
    requires widget { widget < 32 }
    requires starts { (n : ℕ) → has_number starts.now n ≡ true → owns page.now widget n ≡ true }
    requires focus { OptionIn (owns page.now widget) focus }
    ensures image { (s : State) → s.own.forest ≡ forest page.now widget
        → s.own.focus ≡ renumbered (number page.now widget) focus →
        IfOk result (λ found. map (number page.now widget) found.items
        ≡ finds s (map (number page.now widget) starts.now) query.now) }
    ensures own { IfOk result (λ found. (n : ℕ) → has_number found.items n ≡ true → owns page.now widget n ≡ true) }
{
    query_lang::find(alloc, page, focus, starts, query)
}

/// Whether a filter keeps a node of a widget, which has the focus at this node or nowhere. It takes
/// no memory.
pub fn test(page: &Page, widget: u32, focus: Option<NodeId>, node: NodeId, by: &Filter) -> bool
    requires own { owns page.now widget node ≡ true }
    requires focus { OptionIn (owns page.now widget) focus }
    ensures { (s : State) → s.own.forest ≡ forest page.now widget
        → s.own.focus ≡ renumbered (number page.now widget) focus →
        result ≡ passes (look s) s.own.focus by.now (number page.now widget node) }
{
    query_lang::test(page, focus, node, by)
}
