//! A page that is changed and printed, calls of it that are refused, and what queries find on it.
ghost use Rattle.std.specs.Prelude.{◌≡◌, ◌≤◌, ◌<◌, length, IfSome, OnSome};
ghost use Rattle.page_tree.specs.Pages.{nodes};

use crate::answer::{Answer, text_answer};
use crate::keys;
use code_units::{Owner, Text};
use markup_reader::read_markup;
use page_output::{print, print_plain};
use page_tree::{Content, NodeId, Page, PageFault};
use query_lang::{find, read_query};
use std::alloc::Global;

/// What a call gives on a page of its own. It is said in words, or, of a piece of markup, by a query.
pub fn answer_of_page(alloc: Global, call: &str, markup: Option<&str>) -> Option<Answer> {
    let mut page = Page::new(alloc, keys()).ok()?;
    called(alloc, &mut page, call, markup)
}

fn called(alloc: Global, page: &mut Page, call: &str, markup: Option<&str>) -> Option<Answer> {
    if let Some(markup) = markup {
        return found(alloc, page, markup, call);
    }
    match call {
        "append a node" => appended(alloc, page),
        "replace a node" => replaced(alloc, page),
        "copy a node and give it a title" => copied(alloc, page),
        "read the tree of a root" => read_tree(alloc, page),
        "append a node to its own child" => under_itself(alloc, page),
        "replace a root" => replaced_root(alloc, page),
        "copy a node where 16,384 are made" => full_nodes(alloc, page),
        "look for an id, also when its node is taken out" => with_id(alloc, page),
        _ => None,
    }
}

// The numbers of the nodes that a query finds from a piece of markup, whose own number is 1 and
// whose nodes are numbered in order.
fn found(alloc: Global, page: &mut Page, markup: &str, query: &str) -> Option<Answer> {
    let node = add(alloc, page, markup)?;
    let query = read_query(alloc, &Text::from_str(alloc, query).ok()?).ok()?;
    let nodes = find(alloc, page, None, &[node], &query).ok()?;
    Some(Answer::Text(format!(in alloc; "{nodes:?}\n").ok()?))
}

/// Adds the last node of a piece of markup.
pub fn add(alloc: Global, page: &mut Page, markup: &str) -> Option<NodeId>
    ensures node { IfSome result (λ node. node < length (nodes page.new)) }
    ensures older { OnSome result (length (nodes page.old) ≤ length (nodes page.new)) }
{
    let tree = read_markup(alloc, markup.as_bytes()).ok()?.pop()?;
    page.add(alloc, Owner::Widget(0), &tree).ok()
}

// The printed text of a node, and the end of a line.
fn printed(alloc: Global, page: &Page, node: NodeId) -> Option<Answer>
    requires { node < length (nodes page.now) }
{
    let mut out = Vec::new(alloc);
    print(alloc, page, node, &mut out).ok()?;
    out.push(b'\n').ok()?;
    text_answer(out)
}

fn appended(alloc: Global, page: &mut Page) -> Option<Answer> {
    let list = add(alloc, page, "<ul></ul>")?;
    let node = add(alloc, page, "<li>1</li>")?;
    append(page, list, node)?;
    printed(alloc, page, list)
}

fn replaced(alloc: Global, page: &mut Page) -> Option<Answer> {
    let list = add(alloc, page, "<ul></ul>")?;
    let first = add(alloc, page, "<li>1</li>")?;
    let other = add(alloc, page, "<li>2</li>")?;
    append(page, list, first)?;
    page.replace(first, &[other]).ok()?;
    printed(alloc, page, list)
}

// Puts a node behind the last child of another.
fn append(page: &mut Page, target: NodeId, node: NodeId) -> Option<()>
    requires target { target < length (nodes page.old) }
    requires node { node < length (nodes page.old) }
    ensures { OnSome result (length (nodes page.new) ≡ length (nodes page.old)) }
{
    page.append(target, &[node]).ok()
}

fn copied(alloc: Global, page: &mut Page) -> Option<Answer> {
    let node = add(alloc, page, "<p id=\"A_x\">3</p>")?;
    let copy = copy(alloc, page, node)?;
    set_title(alloc, page, copy)?;
    printed(alloc, page, copy)
}

fn copy(alloc: Global, page: &mut Page, node: NodeId) -> Option<NodeId>
    requires { node < length (nodes page.old) }
    ensures { IfSome result (λ copy. copy < length (nodes page.new)) }
{
    match page.owner(node) {
        Owner::Widget(_) => page.copy(alloc, node).ok(),
        Owner::Host => None,
    }
}

fn set_title(alloc: Global, page: &mut Page, node: NodeId) -> Option<()>
    requires { node < length (nodes page.old) }
    ensures { OnSome result (length (nodes page.new) ≡ length (nodes page.old)) }
{
    let name = Text::from_str(alloc, "title").ok()?;
    let value = Text::from_str(alloc, "t").ok()?;
    match page.content(node) {
        Content::Element(..) => page.set_attr(node, &name, Some(value)).ok(),
        Content::Text(_) => None,
    }
}

// The node becomes the root of its widget.
fn adopt(page: &mut Page, node: NodeId) -> Option<()>
    requires { node < length (nodes page.old) }
    ensures { OnSome result (length (nodes page.new) ≡ length (nodes page.old)) }
{
    let Owner::Widget(w) = page.owner(node) else {
        return None;
    };
    if w >= 32 || node == 0 {
        return None;
    }
    if page.parent(node).is_some() || page.root_of(Owner::Widget(w)).is_some() {
        return None;
    }
    page.adopt(node).ok()
}

fn read_tree(alloc: Global, page: &mut Page) -> Option<Answer> {
    let node = add(alloc, page, "<p>a</p>")?;
    adopt(page, node)?;
    let mut out = Vec::new(alloc);
    print_plain(alloc, &page.plain_of(alloc, node).ok()?, &mut out).ok()?;
    out.push(b'\n').ok()?;
    text_answer(out)
}

// The words for a refusal.
fn refused(alloc: Global, fault: PageFault) -> Option<Answer> {
    Some(Answer::Text(format!(in alloc; "{fault:?}\n").ok()?))
}

fn under_itself(alloc: Global, page: &mut Page) -> Option<Answer> {
    let list = add(alloc, page, "<ul></ul>")?;
    let node = add(alloc, page, "<li></li>")?;
    append(page, list, node)?;
    refused(alloc, page.append(node, &[list]).err()?)
}

fn replaced_root(alloc: Global, page: &mut Page) -> Option<Answer> {
    let root = add(alloc, page, "<p></p>")?;
    let other = add(alloc, page, "<p></p>")?;
    adopt(page, root)?;
    refused(alloc, page.replace(root, &[other]).err()?)
}

fn full_nodes(alloc: Global, page: &mut Page) -> Option<Answer> {
    let mut markup = String::from_str(alloc, "<div>").ok()?;
    for _ in 0..16_383 {
        markup.push_str("<b></b>").ok()?;
    }
    markup.push_str("</div>").ok()?;
    let node = add(alloc, page, markup.as_str())?;
    refused(alloc, refused_copy(alloc, page, node)?)
}

// Why a copy is refused, if it is.
fn refused_copy(alloc: Global, page: &mut Page, node: NodeId) -> Option<PageFault>
    requires { node < length (nodes page.old) }
{
    match page.owner(node) {
        Owner::Widget(_) => page.copy(alloc, node).err(),
        Owner::Host => None,
    }
}

fn with_id(alloc: Global, page: &mut Page) -> Option<Answer> {
    let list = add(alloc, page, "<ul><li id=\"COUNT_out\"></li></ul>")?;
    let id = Text::from_str(alloc, "COUNT_out").ok()?;
    let before = page.with_id(Owner::Widget(0), &id).len();
    if list == 0 {
        return None;
    }
    page.empty(list);
    let after = page.with_id(Owner::Widget(0), &id).len();
    Some(Answer::Text(format!(in alloc; "{before} node, then {after}\n").ok()?))
}
