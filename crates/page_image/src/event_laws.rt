//! Laws on what is kept for a widget, as its page changes. The functions do nothing.
ghost use Rattle.std.specs.Prelude.{ℕ, List, ◌++◌, length, replicate};
ghost use Rattle.event_loop.specs.declared.around.Loop.{Loop};
ghost use Rattle.page_image.specs.Image.{forest};
ghost use Rattle.page_image.specs.Stays.{KeepsNodes, Grows};
ghost use Rattle.page_tree.specs.declared.page.Page.{Page};
ghost use Rattle.widget_meaning.specs.OwnState.{OwnState, nothing_kept};
ghost use Rattle.page_image.specs.Around.{Shows};

/// A law: where no node comes and none goes, the same is shown beside the new trees.
pub fn shown_as_nodes_stay()
    ensures { (old new : Page) (w : ℕ) (g : ℕ → ℕ) (l : Loop) (o : OwnState) → KeepsNodes old new → Shows old w g l o →
        Shows new w g l (record o { forest = forest new w }) }
{}

/// A law: where a widget gets nodes, nothing is kept with them.
pub fn shown_as_nodes_come()
    ensures { (old new : Page) (w : ℕ) (news : List ℕ) (g : ℕ → ℕ) (l : Loop) (o : OwnState) → Grows old new w news
        → Shows old w g l o →
        Shows new w g l (record o { forest = forest new w; kept = o.kept ++ replicate (length news) nothing_kept }) }
{}
