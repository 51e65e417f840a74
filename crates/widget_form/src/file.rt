//! A file in its parts, or its first broken rule.
ghost use Rattle.std.specs.Prelude.{◌≡◌, ◌+◌, [], length, map, IfOk, IfErr, filter_map, option_map, take, ◌≢◌};
ghost use Rattle.code_units.specs.Utf8.{utf8_of};
ghost use Rattle.plain_tree.specs.Trees.{Trees, beside};
ghost use Rattle.plain_tree.specs.Plains.{Places, placed, placed_all};
ghost use Rattle.markup_rules.specs.Elements.{before_scripts, body_of};
ghost use Rattle.markup_rules.specs.Parts.{element_of, IsRootPlace, with_body};
ghost use Rattle.markup_rules.specs.Rows.{IsGood};
ghost use Rattle.widget_form.specs.Forms.{HasScripts, span_in, span_of, source, first_of_several, root_scripts, IsForm, IsFormFault};

use crate::form::{Form, FormFault, Span};
use crate::judge::judge;
use code_units::{Memory, Text, utf8_len};
use markup_rules::items::first_named;
use markup_rules::part::{Part, root_of, root_place, scripts_of};
use markup_rules::root::is_script;
use markup_rules::rows::Slot;
use plain_tree::Plain;
use std::alloc::Global;

// Where a text stands.
fn text_span(text: &Text, from: usize) -> Result<Span, Memory>
    ensures { IfOk result (λ s. s ≡ record { from = from; to = from + length (utf8_of text.now) }) }
{
    match from.checked_add(utf8_len(text)) {
        Some(to) => Ok(Span { from, to }),
        None => Err(Memory),
    }
}

// Where the first child of a script stands, if it is a text.
fn child_span(child: &Plain, script_at: usize) -> Result<Span, Memory>
    ensures { (rest : Trees Places) → IfOk result (λ s. s ≡ span_in script_at (beside (placed child.now) rest)) }
{
    match child {
        Plain::Text { text, at } => text_span(text, *at),
        Plain::Element { .. } => Ok(Span {
            from: script_at,
            to: script_at,
        }),
    }
}

// Where the text of a script stands.
fn span_of(script: &Part) -> Result<Span, Memory>
    ensures { IfOk result (λ s. s ≡ span_of (element_of script.now)) }
{
    match script.children.first() {
        Some(child) => child_span(child, script.at),
        None => Ok(Span {
            from: script.at,
            to: script.at,
        }),
    }
}

// The libraries that scripts name, in order.
fn libs_of(alloc: Global, scripts: &[Part]) -> Result<Vec<Text>, Memory>
    ensures { IfOk result (λ v. v.items ≡ filter_map source (map element_of scripts.now)) }
{
    let mut libs = Vec::new(alloc);
    'scripts: for script in scripts {
        if let Some(src) = first_named(script.attrs, b"src") {
            libs.push(src.value.share()?)?;
        }
    }
    Ok(libs)
}

// The span of the first of several scripts.
fn id_span(scripts: &[Part]) -> Result<Option<Span>, Memory>
    ensures { IfOk result (λ s. s ≡ option_map span_of (first_of_several (map element_of scripts.now))) }
{
    if scripts.len() < 2 {
        return Ok(None);
    }
    Ok(Some(span_of(&scripts[0])?))
}

// The number of trees before the first script.
fn script_place(children: &[Plain]) -> usize
    ensures { before_scripts (placed_all children.now) ≡ placed_all (take result children.now) }
{
    'nodes: for (i, plain) in children.iter().enumerate() {
        if is_script(plain) {
            return i;
        }
    }
    children.len()
}

// An element with the children before its first script.
fn trimmed(root: Plain) -> Plain
    ensures { placed result ≡ with_body (placed root) }
{
    match root {
        Plain::Element {
            tag,
            attrs,
            mut children,
            at,
        } => {
            let end = script_place(&children);
            children.truncate(end);
            Plain::Element {
                tag,
                attrs,
                children,
                at,
            }
        }
        Plain::Text { text, at } => Plain::Text { text, at },
    }
}

// The root with the children before its first script.
fn body_at(content: Vec<Plain>, place: usize) -> Plain
    requires { IsRootPlace content.items place }
    ensures { placed result ≡ body_of (placed_all content.items) }
{
    let mut content = content;
    trimmed(content.swap_remove(place))
}

/// The parts of scripts.
#[derive(Drop)]
struct Scripts {
    id_script: Option<Span>,
    libs: Vec<Text>,
    script: Span,
}

// The parts of the scripts of the root.
fn parts_of(alloc: Global, content: &[Plain]) -> Result<Scripts, Memory>
    requires { root_scripts (placed_all content.now) ≢ [] }
    ensures { IfOk result (HasScripts (root_scripts (placed_all content.now))) }
{
    let Some(root) = root_of(content) else {
        unreachable!()
    };
    let scripts = scripts_of(alloc, root.children)?;
    let Some(last) = scripts.last() else {
        unreachable!()
    };
    Ok(Scripts {
        id_script: id_span(&scripts)?,
        libs: libs_of(alloc, &scripts)?,
        script: span_of(last)?,
    })
}

// The form of a file with a root that has scripts.
fn form_of(alloc: Global, name: &Text, content: Vec<Plain>) -> Result<Form, Memory>
    requires { root_scripts (placed_all content.items) ≢ [] }
    ensures { IfOk result (IsForm name.now (placed_all content.items)) }
{
    let Scripts {
        id_script,
        libs,
        script,
    } = parts_of(alloc, &content)?;
    let Some(place) = root_place(&content) else {
        unreachable!()
    };
    Ok(Form {
        name: name.share()?,
        body: body_at(content, place),
        id_script,
        libs,
        script,
    })
}

/// The parts of a widget file, by the slot's name and the files of its libraries (`docs/RULES.md`).
///
/// `BadForm` comes exactly where one of the rules M02 to M12 is broken, and gives the first of them.
pub fn split(
    alloc: Global,
    name: &Text,
    libs: &[Text],
    content: Vec<Plain>,
) -> Result<Form, FormFault>
    // A file with a form breaks no rule.
    ensures good { IfOk result (λ form. IsGood name.now libs.now (placed_all content.items)) }
    // The form has the parts of the file.
    ensures form { IfOk result (IsForm name.now (placed_all content.items)) }
    // The rule of a refusal is the first that is broken.
    ensures first { IfErr result (IsFormFault name.now libs.now (placed_all content.items)) }
{
    let slot = Slot { name, libs };
    match judge(alloc, &slot, &content)? {
        Some(first) => Err(FormFault::BadForm {
            rule: first.rule,
            at: first.at,
        }),
        None => Ok(form_of(alloc, name, content)?),
    }
}
