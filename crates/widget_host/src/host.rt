//! A host: it loads a page, and hands out what it has.
ghost use Rattle.std.specs.Prelude.{◌≡◌, ℕ, List, None, Option, Some, ◌+◌, ◌<◌, ◌≤◌, IfOk, IfSome, OnErr, OnOk, false, if◌then◌else◌, length, slice_get, slice_index_or, true};
ghost use Rattle.js_image.specs.Held.{IsConfined};
ghost use Rattle.life_laws.specs.Life.{Seen, image};
ghost use Rattle.page_build.specs.Layout as layout;
ghost use Rattle.page_image.specs.Image.{HasRoot, owns, root_of};
ghost use Rattle.page_nodes.specs.Entries.{at, body};
ghost use Rattle.page_tree.specs.Pages.{nodes};
ghost use Rattle.slot_picks.specs.Lives.{is_present};
ghost use Rattle.slot_picks.specs.declared.lives.Place.{Place};
ghost use Rattle.slot_picks.specs.Places.{HoldsItsOwn};
ghost use Rattle.widget_meaning.specs.OwnState.{OwnState};
ghost use Rattle.page_output.specs.Printing.{Prints, PrintsPart};
ghost use Rattle.plain_tree.specs.Trees.{End};
ghost use Rattle.page_plan.specs.Loadable.{IsLoadable};
ghost use Rattle.page_plan.specs.Pages.{PagePiece, page_of, roots};
ghost use Rattle.widget_host.specs.Housed.{AreShown, IsHoused, IsLaid, Loads, accepts, chains, journal, marked, own_trees, places, rooted, seens, shared};
ghost use Rattle.widget_host.specs.Shapes.{HasOneRaw, IsReadOff, cells_of_host, cells_of_widgets};
ghost use Rattle.life_laws.specs.Journal.{AllJoined, journal_room};

use crate::loading::load_host;
use code_units::Memory;
use js_names::Code;
use keyed_names::Keys;
use life_laws::PickEntry;
use object_store::Store;
use page_nodes::BODY;
use page_output::print;
use page_plan::PageSpec;
use page_tree::Page;
use slot_picks::{Lives, Slot, present};
use std::alloc::Global;
use std::collections::VecDeque;

/// One store and one page, the lives of all places, and the slots in which they follow on each other. A
/// host whose call wanted memory is marked: nothing of it changes any more, and each later `give`, `give_swap`,
/// `pick`, `settle`, `item`, `rounds`, `line`, `retired` and `reach` is answered with `Memory`. What it holds can
/// still be read, and its page printed.
#[derive(Drop)]
pub struct Host {
    pub(crate) lives: Lives,
    pub(crate) slots: Vec<Slot>,
    /// The libraries of the page, for the contents of swaps.
    pub(crate) libs: Vec<Code>,
    /// The keys of the tables of lives to come.
    pub(crate) keys: Keys,
    /// Who hears whose posts, by the numbers of both slots, the sender first.
    pub(crate) channels: Vec<(u32, u32)>,
    pub(crate) given: u32,
    /// The life that each swap that was given ends, in order.
    pub(crate) ends: Vec<u32>,
    /// A call ended out of memory: nothing changes any more.
    pub(crate) marked: bool,
}

impl Host {
    /// A page is loaded: each piece in its place, and for each widget its scripts and its load turns. The
    /// keys are those of the tables that hash what a stranger chose.
    pub fn load(alloc: Global, keys: Keys, spec: PageSpec) -> Result<Host, Memory>
        requires loadable { IsLoadable spec }
        ensures { IfOk result (Loads spec) }
    {
        load_host(alloc, keys, spec)
    }

    /// The cells of all widgets and of the host, and no others. Each widget is confined to its own, also where the
    /// host is marked: what its cells lead to is its own, the code of each of its functions is one of its own scripts,
    /// and the names of its cells are permitted, but for the hidden one of a Bunch. Unless the host is marked, each
    /// node of the page, those of its own markup too, has one RawNode.
    pub fn store(&self) -> &Store
        ensures are { result.now ≡ (shared self.now).store }
        ensures confined { IsHoused self.now → (v : ℕ) → accepts self.now v ≡ true
            → IsConfined (own_trees self.now v) v result.now }
        ensures counted { IsHoused self.now
            → length result.now.cells
            ≡ cells_of_host result.now + cells_of_widgets result.now (length (places self.now)) }
        ensures raws { IsHoused self.now → marked self.now ≡ false → (n : ℕ)
            → n < length (nodes (shared self.now).page) → HasOneRaw result.now.cells n }
    {
        let store = &self.lives.shared.store;
        store.nodes_have_one_cell();
        store
    }

    /// The page. Under `body` stand its own markup and what stands in each slot: the root of its present life,
    /// or an empty `div` where that was refused. The root of a life that has ended, or whose swap waits, has no
    /// parent. A node that is a widget's is that of an accepted one.
    pub fn page(&self) -> &Page
        ensures are { result.now ≡ (shared self.now).page }
        ensures laid { IsHoused self.now → (names : List (List ℕ)) (pieces : List PagePiece)
            → IsLaid self.now names pieces
            → layout.IsLaid result.now names (rooted (accepts self.now) (chains self.now)) pieces }
        ensures roots { IsHoused self.now → (v : ℕ) → accepts self.now v ≡ true → HasRoot result.now v }
        ensures stand { IsHoused self.now → (v : ℕ) (p : Place) → slice_get (places self.now) v ≡ Some p
            → p.life.accepted ≡ true
            → (root_of result.now v ≡ Some p.root)
            × ((at (nodes result.now) p.root).parent ≡ (if is_present v (chains self.now) then Some body else None)) }
        ensures owners { IsHoused self.now → (v n : ℕ) → owns result.now v n ≡ true → accepts self.now v ≡ true }
    {
        &self.lives.shared.page
    }

    /// A law: all that an accepted life holds is its own, also where the host is marked: what its cells lead to, the
    /// codes of its functions, the nodes of its Bunches, what its handlers, its timers and its focus hold,
    /// and what waits in its turn.
    pub fn widgets_hold_their_own(&self)
        ensures { IsHoused self.now → (v : ℕ) (p : Place) → slice_get (places self.now) v ≡ Some p
            → p.life.accepted ≡ true → HoldsItsOwn (shared self.now) v p }
    {}

    /// A law: what is seen of the objects, the scopes and the trees of an accepted life is read off the one store and
    /// the one page.
    pub fn images_are_read_off(&self)
        ensures { (v : ℕ) (s : Seen) → accepts self.now v ≡ true → slice_get (seens self.now) v ≡ Some s
            → IsReadOff (own_trees self.now v) (shared self.now) v (image s) }
    {}

    /// The last picks that were not idle, at most 65,536. Those of a life follow on each other, and the last
    /// ends at what the life has spent.
    pub fn journal(&self) -> &VecDeque<PickEntry>
        ensures are { result.now.items ≡ journal self.now }
        ensures short { IsHoused self.now → marked self.now ≡ false → length (journal self.now) ≤ journal_room }
        ensures joined { IsHoused self.now → marked self.now ≡ false → AllJoined (journal self.now) (seens self.now) }
    {
        &self.lives.journal
    }

    /// A law: a turn in progress has no more fuel left than a turn of its life is granted, so that no turn spends more.
    pub fn turns_keep_to_their_grant(&self)
        ensures { IsHoused self.now → marked self.now ≡ false → (v : ℕ) (p : Place)
            → slice_get (places self.now) v ≡ Some p → p.life.accepted ≡ true
            → IfSome p.life.turn (λ t. t.left ≤ p.life.grant) }
    {}

    /// The text of the page is appended: its own markup, and in each slot the root of its present life. `Memory` leaves
    /// a prefix of that text appended.
    pub fn print_page(&self, alloc: Global, out: &mut Vec<u8>) -> Result<(), Memory>
        ensures ok { OnOk result (IsHoused self.now
            → (names : List (List ℕ)) (pieces : List PagePiece) (ends : List (Option OwnState))
            → IsLaid self.now names pieces → AreShown self.now (chains self.now) ends
            → Prints (page_of pieces (roots names ends)) out.old.items out.new.items) }
        ensures part { OnErr result (IsHoused self.now
            → (names : List (List ℕ)) (pieces : List PagePiece) (ends : List (Option OwnState))
            → IsLaid self.now names pieces → AreShown self.now (chains self.now) ends
            → PrintsPart (page_of pieces (roots names ends)) out.old.items out.new.items) }
    {
        print(alloc, &self.lives.shared.page, BODY, out)
    }

    /// The text of what stands in a slot is appended, in the time that this text takes: the root of its present life,
    /// or an empty `div` where that was refused. It is what `print_page` appends in the place of this slot. `Memory`
    /// leaves a prefix of that text appended.
    pub fn print_slot(&self, alloc: Global, w: u32, out: &mut Vec<u8>) -> Result<(), Memory>
        requires housed { IsHoused self.now }
        requires there { w < length (chains self.now) }
        ensures ok { OnOk result ((names : List (List ℕ)) (pieces : List PagePiece) (ends : List (Option OwnState))
            → IsLaid self.now names pieces → AreShown self.now (chains self.now) ends
            → Prints (slice_index_or (roots names ends) w End) out.old.items out.new.items) }
        ensures part { OnErr result ((names : List (List ℕ)) (pieces : List PagePiece) (ends : List (Option OwnState))
            → IsLaid self.now names pieces → AreShown self.now (chains self.now) ends
            → PrintsPart (slice_index_or (roots names ends) w End) out.old.items out.new.items) }
    {
        let v = present(&self.slots[w as usize].lives);
        let node = self.lives.places[v as usize].root;
        print(alloc, &self.lives.shared.page, node, out)
    }
}
