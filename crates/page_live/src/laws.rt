//! Laws of pages that live: the function does nothing, and its contract is the law.
ghost use Rattle.std.specs.Prelude.{◌≡◌, [], List};
ghost use Rattle.trace_reader.specs.Said.{Said};
ghost use Rattle.page_plan.specs.declared.PageSpec.{PageSpec};
ghost use Rattle.page_plan.specs.declared.SlotContent.{SlotContent};
ghost use Rattle.page_play.specs.Host.{Host};
ghost use Rattle.page_play.specs.Played.{IsPlayed};
ghost use Rattle.page_live.specs.Living.{IsLive};

/// A page without channels that has taken its items one after the other has played them: it is as if it had been handed
/// all of them first.
pub fn live_pages()
    ensures { (spec : PageSpec) (swaps : List SlotContent) (items : List Said) (h : Host)
        → spec.channels.items ≡ [] → IsLive spec swaps items h → IsPlayed spec swaps items h }
{}
