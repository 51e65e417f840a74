//! What each rule says, and what to write instead: the texts of docs/rules.tsv.
use trace_text::Rule;

/// The words on a rule.
#[derive(Clone, Copy)]
pub struct Words {
    /// When it is broken.
    pub says: &'static str,
    /// What to write instead.
    pub instead: &'static str,
}

// When the rules A01 to A20 are broken.
const SCRIPT_SAYS: [&str; 20] = [
    "the text has a bad token, or is no program of the grammar",
    "the program is not exactly the one call that its position asks for: ADSAFE.id(\"NAME_\");, ADSAFE.lib(\"name\", function (p) {..}); or ADSAFE.go(\"NAME_\", function (p, q) {..});, with a function that has no name and at most one parameter (lib) or two (go), the slot's name, or a library's name of 1 to 64 ASCII letters and digits, first a letter, and not banned",
    "a name, a property, a key or a string subscript begins or ends with _",
    "this stands",
    "a property, a key or a string subscript is banned; or a name is arguments or eval",
    "a name is bound by no enclosing function or catch and is no listed global",
    "a subscript is none of: a number, a string, +e, -e, e - e, e * e, e / e, e % e, a step",
    "a listed global is declared, bound or written to",
    "ADSAFE stands otherwise than in a call ADSAFE.x(..) with x among create fromJson get has isArray keys later log post remove set toJson, apart from the call of A02",
    "Math.random or Math[\"random\"] stands",
    "with stands",
    "== or != stands",
    "a bitwise operator, a shift, or an assignment with one stands",
    "new, instanceof or the operator in stands",
    "void or a comma operator stands",
    "a label, a jump to a label, a break outside a loop and switch of its function, or a continue outside a loop of its function stands",
    "a number has a fraction, an exponent, a value over 9007199254740991, or a leading 0 before a digit",
    "an expression statement is no assignment, call, step or delete; \"use strict\"; as the first statement of a function is exempt",
    "what is assigned or stepped is no name, dot or subscript, or what is deleted no dot or subscript",
    "the text is nested over 200 links deep (see GRAMMAR.md)",
];

// What to write instead.
const SCRIPT_INSTEAD: [&str; 20] = [
    "end each statement with ;, stand bodies in { }, put no comma before ] } or ); var for let and const, function (a) { return b; } for an arrow, \"a\" + b for backticks, indexOf and split for a regular expression, function for class, another name for a reserved word such as char, int or final",
    "one call; a library's name of ASCII letters and digits",
    "a name without _ at its ends",
    "hand the object over",
    "another name; parameters in place of arguments",
    "declare it, or take it from lib or dom",
    "+e for a number, ADSAFE.get for a name",
    "a variable of your own",
    "call its methods; hand on a function",
    "a sequence of your own from a start",
    "a variable for the object",
    "=== and !==",
    "arithmetic: * 2, % 2",
    "a function that makes the object; ADSAFE.has, ADSAFE.isArray",
    "two statements; undefined",
    "a variable that ends the loop",
    "whole numbers, in a smaller unit",
    "assign it, or call it",
    "assign to a property",
    "a name for an inner part",
];

// When the rules M01 to M12 are broken.
const MARKUP_SAYS: [&str; 12] = [
    "the file is no content of MARKUP.md",
    "blank text aside, the file is not exactly one div",
    "the div has no id, or another than the slot's name",
    "blank text aside, the div's last child is no script without src",
    "a script stands in another element than the div; a script has a later sibling that is neither blank text nor script; or the scripts before the last are not one without src followed by ones with src",
    "a tag is not listed",
    "an attribute is not listed, stands twice, or is not for a script (src and type alone are)",
    "an id below the div, or a for, is not the slot's name followed by one or more ASCII letters, digits, _ or -; or an id stands twice (the second)",
    "a class, name or type has another character than ASCII letters, digits, space, _, - and /; or an href or src contains javascript: in any case",
    "a style is no list of styles (MARKUP.md)",
    "a script has a src that is none of the slot's libraries",
    "the subtree has over 16,384 nodes",
];

// What to write instead.
const MARKUP_INSTEAD: [&str; 12] = [
    "&amp; and &lt;, end tags, quotes round values, tags and attributes in small letters; no comments; the character itself or &#169; for &copy;; <\\/ for </ in a string of a script",
    "all within the one div",
    "the slot's name as id",
    "the ADSAFE.go script as last child",
    "first the ADSAFE.id script, then the libraries, then the ADSAFE.go script",
    "a listed tag, as div for form and section",
    "dom.q(..).on(..) for handlers, class for data",
    "the slot's name before each id, and each once",
    "plain words; an address, and a handler in place of a script",
    "listed properties, each once; an img for a picture",
    "a path of the manifest's libs, letter by letter",
    "fewer nodes: show a part at a time",
];

/// The words on a rule.
pub fn words_of(rule: Rule) -> Words {
    match rule {
        Rule::A(number) => {
            Words {
                says: text_at(&SCRIPT_SAYS, number),
                instead: text_at(&SCRIPT_INSTEAD, number),
            }
        }
        Rule::M(number) => {
            Words {
                says: text_at(&MARKUP_SAYS, number),
                instead: text_at(&MARKUP_INSTEAD, number),
            }
        }
    }
}

// The text of a number, counted from 1.
fn text_at(texts: &[&'static str], number: u8) -> &'static str {
    match texts.get(usize::from(number).wrapping_sub(1)) {
        Some(text) => text,
        None => "",
    }
}
