//! The tags that a widget may have.
ghost use Rattle.std.specs.Prelude.{◌≡◌};
ghost use Rattle.plain_tree.specs.Tags.{is_phrase, is_block, is_list, is_form, is_table, is_listed_tag};

use code_units::{Text, is_word};

/// Whether the tag is listed, as docs/MARKUP.md has it. `script` is not.
pub fn tag_listed(tag: &Text) -> bool
    ensures { result ≡ is_listed_tag tag.now }
{
    is_phrase(tag) || is_block(tag) || is_list(tag) || is_form(tag) || is_table(tag)
}

// What stands in a line.
#[tactic(auto, unfolding(crate::specs::Tags::is_phrase))]
fn is_phrase(tag: &Text) -> bool
    ensures { result ≡ is_phrase tag.now }
{
    is_word(tag, b"a")
        || is_word(tag, b"abbr")
        || is_word(tag, b"b")
        || is_word(tag, b"br")
        || is_word(tag, b"code")
        || is_word(tag, b"em")
        || is_word(tag, b"i")
        || is_word(tag, b"img")
        || is_word(tag, b"small")
        || is_word(tag, b"span")
        || is_word(tag, b"strong")
        || is_word(tag, b"sub")
        || is_word(tag, b"sup")
}

#[tactic(auto, unfolding(crate::specs::Tags::is_block))]
fn is_block(tag: &Text) -> bool
    ensures { result ≡ is_block tag.now }
{
    is_word(tag, b"blockquote")
        || is_word(tag, b"div")
        || is_word(tag, b"h1")
        || is_word(tag, b"h2")
        || is_word(tag, b"h3")
        || is_word(tag, b"h4")
        || is_word(tag, b"h5")
        || is_word(tag, b"h6")
        || is_word(tag, b"hr")
        || is_word(tag, b"p")
        || is_word(tag, b"pre")
}

#[tactic(auto, unfolding(crate::specs::Tags::is_list))]
fn is_list(tag: &Text) -> bool
    ensures { result ≡ is_list tag.now }
{
    is_word(tag, b"dd")
        || is_word(tag, b"dl")
        || is_word(tag, b"dt")
        || is_word(tag, b"li")
        || is_word(tag, b"ol")
        || is_word(tag, b"ul")
}

#[tactic(auto, unfolding(crate::specs::Tags::is_form))]
fn is_form(tag: &Text) -> bool
    ensures { result ≡ is_form tag.now }
{
    is_word(tag, b"button")
        || is_word(tag, b"input")
        || is_word(tag, b"label")
        || is_word(tag, b"option")
        || is_word(tag, b"select")
        || is_word(tag, b"textarea")
}

#[tactic(auto, unfolding(crate::specs::Tags::is_table))]
fn is_table(tag: &Text) -> bool
    ensures { result ≡ is_table tag.now }
{
    is_word(tag, b"caption")
        || is_word(tag, b"table")
        || is_word(tag, b"tbody")
        || is_word(tag, b"td")
        || is_word(tag, b"tfoot")
        || is_word(tag, b"th")
        || is_word(tag, b"thead")
        || is_word(tag, b"tr")
}
