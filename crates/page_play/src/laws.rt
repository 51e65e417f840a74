//! What a page that was played comes to, by the definitions: the function does nothing, and its contract is the law.
ghost use Rattle.std.specs.Prelude.{List, ◌++◌, map};
ghost use Rattle.trace_reader.specs.Said.{Said};
ghost use Rattle.slot_check.specs.Sources.{Source};
ghost use Rattle.page_plan.specs.declared.PageSpec.{PageSpec};
ghost use Rattle.page_plan.specs.declared.SlotContent.{SlotContent};
ghost use Rattle.page_check.specs.Runs.{SlotRun};
ghost use Rattle.slot_lives.specs.Ends.{end_of};
ghost use Rattle.slot_lives.specs.Outcome.{Outcome};
ghost use Rattle.widget_host.specs.declared.host.Host.{Host};
ghost use Rattle.page_play.specs.declared.findings.Findings.{Findings};
ghost use Rattle.page_play.specs.Findings.{AreEven, AreFindings, found_refused, lasts_told, ended_told, lines_of};
ghost use Rattle.page_play.specs.Played.{IsPlayed, ended_in};
ghost use Rattle.page_play.specs.Told.{AreTold, AreBegun};

/// Where the files of a page and of the swaps among items were judged, and a host has played this page on these items,
/// each life begins with the widget of its file, or none where that breaks a rule; and what the host shows, and what is
/// written of it, is the outcome of the page.
pub fn plays_come_to()
    ensures begun { (spec : PageSpec) (swaps : List SlotContent) (items : List Said) (runs : List SlotRun)
        (files : List Source) (f : Findings)
        → AreFindings spec swaps items runs files f → AreBegun spec swaps items runs files }
    ensures even { (spec : PageSpec) (swaps : List SlotContent) (items : List Said) (runs : List SlotRun)
        (files : List Source) (f : Findings) (h : Host)
        → IsPlayed spec swaps items h → AreFindings spec swaps items runs files f → AreEven f }
    ensures told { (spec : PageSpec) (swaps : List SlotContent) (items : List Said) (runs : List SlotRun)
        (files : List Source) (f : Findings) (h : Host)
        → (p : IsPlayed spec swaps items h) → AreFindings spec swaps items runs files f
        → AreTold f h (map end_of p.fed) (map end_of (ended_in spec swaps items)) }
    ensures outcome { (spec : PageSpec) (swaps : List SlotContent) (items : List Said) (runs : List SlotRun)
        (files : List Source) (f : Findings) (h : Host)
        → (p : IsPlayed spec swaps items h) → AreFindings spec swaps items runs files f
        → Outcome spec.channels.items runs files items (found_refused f) (map end_of p.fed)
        (lines_of (lasts_told f) (map end_of p.fed) ++ lines_of (ended_told f)
        (map end_of (ended_in spec swaps items))) }
{}
