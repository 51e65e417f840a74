//! What is kept for a widget, at its own state: each call of a loop is what the meaning does there.
ghost use Rattle.std.specs.Prelude.{◌≡◌, ℕ, ◌<◌, [], map, true, length, unwrap_or, option_copied, slice_get, nat_le, replicate, None, IfOk, OnOk, OnErr, IfErr, ◌⊎◌};
ghost use Rattle.std.specs.Option.{option_map};
ghost use Rattle.query_grammar.specs.Renumbering.{renumbered};
ghost use Rattle.widget_meaning.specs.AdsafeNatives.{with_timer};
ghost use Rattle.widget_meaning.specs.BunchWrites.{change_kept, with_handler};
ghost use Rattle.widget_meaning.specs.Items.{next_due};
ghost use Rattle.widget_meaning.specs.Limits.{max_timers};
ghost use Rattle.widget_meaning.specs.OwnState.{OwnState, State, kept_at, nothing_kept};
ghost use Rattle.widget_meaning.specs.Values.{Own};
ghost use Rattle.event_loop.specs.Around.{clock};
ghost use Rattle.event_loop.specs.declared.around.LoopFault.TheVariants as fault;
ghost use Rattle.page_image.specs.Held.{OptionIn};
ghost use Rattle.page_image.specs.Image.{owns, number, own, forest};
ghost use Rattle.page_image.specs.Around.{Shows, handler_of, timer_of, hushed, marked, protected, by_due, after_due};

use code_units::{Memory, Text};
use event_loop::{Loop, LoopFault, Timer};
use keyed_names::Keys;
use page_tree::{NodeId, Page};
use std::alloc::Global;

/// Nothing is kept, and the clock is at 0. The table hashes by these keys.
pub fn new(alloc: Global, keys: Keys, page: &Page, widget: u32) -> Result<Loop, Memory>
    ensures { IfOk result (λ around. (g : ℕ → ℕ) (o : OwnState) → Shows page.now widget g around (record o {
      forest = forest page.now widget;
      kept = replicate (length (own page.now widget)) nothing_kept;
      timers = [];
      clock = 0;
      focus = None;
    })) }
{
    Loop::new(alloc, keys)
}

/// The handlers of a widget's node, in order of listening. It takes no memory.
pub fn handlers<'a>(around: &'a Loop, page: &Page, widget: u32, node: NodeId) -> &'a [(Text, u32)]
    requires { owns page.now widget node ≡ true }
    ensures { (g : ℕ → ℕ) (s : State) → Shows page.now widget g around.now s.own →
        map (handler_of g) result.now ≡ (kept_at s (number page.now widget node)).handlers }
{
    around.handlers(node)
}

/// The text that was set for a widget's node, none where none was: the meaning has the empty text
/// there. It takes no memory.
pub fn mark<'a>(around: &'a Loop, page: &Page, widget: u32, node: NodeId) -> Option<&'a Text>
    requires { owns page.now widget node ≡ true }
    ensures { (g : ℕ → ℕ) (s : State) → Shows page.now widget g around.now s.own →
        unwrap_or (option_copied result) [] ≡ (kept_at s (number page.now widget node)).mark }
{
    around.mark(node)
}

/// Whether a widget's node is protected. It takes no memory.
pub fn is_protected(around: &Loop, page: &Page, widget: u32, node: NodeId) -> bool
    requires { owns page.now widget node ≡ true }
    ensures { (g : ℕ → ℕ) (s : State) → Shows page.now widget g around.now s.own →
        result ≡ (kept_at s (number page.now widget node)).is_protected }
{
    around.is_protected(node)
}

/// Gives a widget's node one more handler, the last: a type and a function.
pub fn listen(
    around: &mut Loop,
    alloc: Global,
    page: &Page,
    widget: u32,
    node: NodeId,
    handler: (Text, u32),
) -> Result<(), Memory>
    requires { owns page.now widget node ≡ true }
    ensures image { (g : ℕ → ℕ) (s : State) → Shows page.now widget g around.old s.own →
        OnOk result (Shows page.now widget g around.new
        (change_kept (with_handler handler.0 (Own (g handler.1))) s (number page.now widget node)).own) }
    ensures same { (g : ℕ → ℕ) (o : OwnState) → Shows page.now widget g around.old o →
        OnErr result (Shows page.now widget g around.new o) }
{
    let (kind, func) = handler;
    around.listen(alloc, node, kind, func)
}

/// Takes the handlers of a type from a widget's node, or all. It takes no memory.
pub fn hush(around: &mut Loop, page: &Page, widget: u32, node: NodeId, kind: Option<&Text>)
    requires { owns page.now widget node ≡ true }
    ensures { (g : ℕ → ℕ) (s : State) → Shows page.now widget g around.old s.own → Shows page.now widget g around.new
        (change_kept (hushed (option_copied kind.entry)) s (number page.now widget node)).own }
{
    around.hush(node, kind);
}

/// Sets the text of a widget's node.
pub fn set_mark(
    around: &mut Loop,
    alloc: Global,
    page: &Page,
    widget: u32,
    node: NodeId,
    text: Text,
) -> Result<(), Memory>
    requires { owns page.now widget node ≡ true }
    ensures image { (g : ℕ → ℕ) (s : State) → Shows page.now widget g around.old s.own →
        OnOk result (Shows page.now widget g around.new
        (change_kept (marked text) s (number page.now widget node)).own) }
    ensures same { (g : ℕ → ℕ) (o : OwnState) → Shows page.now widget g around.old o →
        OnErr result (Shows page.now widget g around.new o) }
{
    around.set_mark(alloc, node, text)
}

/// Protects a widget's node for good.
pub fn protect(
    around: &mut Loop,
    alloc: Global,
    page: &Page,
    widget: u32,
    node: NodeId,
) -> Result<(), Memory>
    requires { owns page.now widget node ≡ true }
    ensures image { (g : ℕ → ℕ) (s : State) → Shows page.now widget g around.old s.own →
        OnOk result (Shows page.now widget g around.new
        (change_kept protected s (number page.now widget node)).own) }
    ensures same { (g : ℕ → ℕ) (o : OwnState) → Shows page.now widget g around.old o →
        OnErr result (Shows page.now widget g around.new o) }
{
    around.protect(alloc, node)
}

/// The node that has the focus, none exactly where none is recorded. It takes no memory.
pub fn focus(around: &Loop, page: &Page, widget: u32) -> Option<NodeId>
    ensures image { (g : ℕ → ℕ) (o : OwnState) → Shows page.now widget g around.now o →
        renumbered (number page.now widget) result ≡ o.focus }
    ensures own { (g : ℕ → ℕ) (o : OwnState) → Shows page.now widget g around.now o
        → OptionIn (owns page.now widget) result }
{
    around.focus()
}

/// Records the node of a widget that has the focus, or that none has. It takes no memory.
pub fn set_focus(around: &mut Loop, page: &Page, widget: u32, node: Option<NodeId>)
    requires { OptionIn (owns page.now widget) node }
    ensures { (g : ℕ → ℕ) (o : OwnState) → Shows page.now widget g around.old o →
        Shows page.now widget g around.new (record o { focus = renumbered (number page.now widget) node }) }
{
    around.set_focus(node);
}

/// The clock, in milliseconds. It takes no memory.
pub fn clock(around: &Loop, page: &Page, widget: u32) -> u64
    ensures { (g : ℕ → ℕ) (o : OwnState) → Shows page.now widget g around.now o → result ≡ o.clock }
{
    around.clock()
}

/// How many timers wait. It takes no memory.
pub fn waiting(around: &Loop, page: &Page, widget: u32) -> u32
    ensures { (g : ℕ → ℕ) (o : OwnState) → Shows page.now widget g around.now o → result ≡ length o.timers }
{
    around.waiting()
}

/// Starts a timer as the meaning does. But for want of memory it is refused exactly where as many
/// wait as may.
pub fn later(
    around: &mut Loop,
    page: &Page,
    widget: u32,
    func: u32,
    ms: i64,
) -> Result<(), LoopFault>
    requires { clock around.old < 4611686018427387904 }
    ensures image { (g : ℕ → ℕ) (s : State) → Shows page.now widget g around.old s.own →
        OnOk result (Shows page.now widget g around.new (with_timer s (Own (g func)) ms).own) }
    ensures room { (g : ℕ → ℕ) (o : OwnState) → Shows page.now widget g around.old o →
        OnOk result (length o.timers < max_timers) }
    ensures refused { (g : ℕ → ℕ) (o : OwnState) → Shows page.now widget g around.old o →
        IfErr result (λ f. (f ≡ fault.Memory) ⊎ (nat_le max_timers (length o.timers) ≡ true)) }
    ensures same { (g : ℕ → ℕ) (o : OwnState) → Shows page.now widget g around.old o →
        OnErr result (Shows page.now widget g around.new o) }
{
    around.later(func, ms)
}

/// Takes out the timer that is due next up to a limit, and sets the clock: to its due time, or to the
/// limit where none is due. It takes no memory.
pub fn due(around: &mut Loop, page: &Page, widget: u32, until: u64) -> Option<Timer>
    ensures next { (g : ℕ → ℕ) (o : OwnState) → Shows page.now widget g around.old o →
        option_map (timer_of g) result ≡ next_due until o.timers }
    ensures image { (g : ℕ → ℕ) (o : OwnState) → Shows page.now widget g around.old o →
        Shows page.now widget g around.new (after_due (next_due until o.timers) until o) }
{
    around.due(until)
}

/// The waiting timer at a place by due time, the earlier started first at a tie, from 0. It takes no
/// memory.
pub fn timer(around: &Loop, page: &Page, widget: u32, at: u32) -> Option<Timer>
    ensures { (g : ℕ → ℕ) (o : OwnState) → Shows page.now widget g around.now o →
        option_map (timer_of g) result ≡ slice_get (by_due o.timers) at }
{
    around.timer(at)
}
