//! What methods ask of nodes before they change anything.
ghost use Rattle.std.specs.Prelude.{◌≡◌, ℕ, true, false, map};
ghost use Rattle.std.specs.List.{list_all};
ghost use Rattle.query_grammar.specs.Finds.{has_number};
ghost use Rattle.widget_meaning.specs.OwnState.{State};
ghost use Rattle.widget_meaning.specs.PageForms as forms;
ghost use Rattle.page_image.specs.Image.{forest, number, owns};
ghost use Rattle.bunch_attributes.specs.Tests.{is_field_tag, passes};

use code_units::{Text, is_word};
use native_common::WidgetId;
use page_image::tag;
use page_tree::{NodeId, Page};

/// What a method asks of each node: that it is an element, an `input`, or an element that can be
/// disabled.
#[derive(Clone, Copy, Drop)]
pub enum Test {
    Element,
    Input,
    Field,
}

/// Whether a node is a text node.
pub fn is_text_node(node: NodeId, w: WidgetId, page: &Page) -> bool
    requires { owns page.now w.index node ≡ true }
    ensures { (s : State) → s.own.forest ≡ forest page.now w.index
        → result ≡ forms.is_text_node s (number page.now w.index node) }
{
    match tag(page, w.index, node) {
        Some(_) => false,
        None => true,
    }
}

/// Whether a node is an `input`.
pub fn is_input(node: NodeId, w: WidgetId, page: &Page) -> bool
    requires { owns page.now w.index node ≡ true }
    ensures { (s : State) → s.own.forest ≡ forest page.now w.index
        → result ≡ forms.is_input s (number page.now w.index node) }
{
    match tag(page, w.index, node) {
        Some(name) => is_word(name, b"input"),
        None => false,
    }
}

// Whether a tag is one of those that can be disabled.
fn is_field_tag(name: &Text) -> bool
    ensures { result ≡ is_field_tag name.now }
{
    is_word(name, b"input")
        || is_word(name, b"button")
        || is_word(name, b"textarea")
        || is_word(name, b"select")
        || is_word(name, b"option")
}

// Whether a node is an element that can be disabled.
fn is_field(node: NodeId, w: WidgetId, page: &Page) -> bool
    requires { owns page.now w.index node ≡ true }
    ensures { (s : State) → s.own.forest ≡ forest page.now w.index
        → result ≡ forms.is_field s (number page.now w.index node) }
{
    match tag(page, w.index, node) {
        Some(name) => is_field_tag(name),
        None => false,
    }
}

// Whether a node passes a test.
fn passes(test: Test, node: NodeId, w: WidgetId, page: &Page) -> bool
    requires { owns page.now w.index node ≡ true }
    ensures { (s : State) → s.own.forest ≡ forest page.now w.index
        → result ≡ passes test s (number page.now w.index node) }
{
    match test {
        Test::Element => !is_text_node(node, w, page),
        Test::Input => is_input(node, w, page),
        Test::Field => is_field(node, w, page),
    }
}

/// Whether each node passes a test.
pub fn all_pass(list: &[NodeId], test: Test, w: WidgetId, page: &Page) -> bool
    requires { (n : ℕ) → has_number list.now n ≡ true → owns page.now w.index n ≡ true }
    ensures { (s : State) → s.own.forest ≡ forest page.now w.index
        → result ≡ list_all (passes test s) (map (number page.now w.index) list.now) }
{
    'each: for node in list {
        if !passes(test, *node, w, page) {
            return false;
        }
    }
    true
}
