//! What the words of the command line ask for.
ghost use Rattle.std.specs.Prelude.{◌≡◌, ◌∷◌, [], ℕ, IfSome, IfNone};
ghost use Rattle.std.specs.Str.{bytes_eq};
ghost use Rattle.std.specs.Fmt.{decimal};
ghost use Rattle.run_steps.specs.Page.{texts};
ghost use Rattle.run_steps.specs.Request.{IsCount, request_of, Asks, IsForm};

use itoa::Buffer;

/// The greatest slice of `replay` and `audit`.
pub const SLICE_LIMIT: u32 = 1_000_000;

/// The greatest number of `demo`.
const DEMO_LIMIT: u32 = 4_096;

/// What is asked for: one of the eight forms of words (docs/PROGRAM.md, "Forms of words").
#[derive(Clone, Copy)]
pub enum Request<'a> {
    /// `check MANIFEST`: the lines of all slots of a page.
    Check {
        manifest: &'a str,
    },
    /// `check-lib FILE`: the line of a library.
    CheckLib {
        file: &'a str,
    },
    /// `tidy FILE`: the tidied text of a library.
    Tidy {
        file: &'a str,
    },
    /// `render MANIFEST`.
    Render {
        manifest: &'a str,
    },
    /// `replay MANIFEST TRACE SLICE`.
    Replay {
        manifest: &'a str,
        trace: &'a str,
        slice: u32,
    },
    /// `audit MANIFEST TRACE SLICE`.
    Audit {
        manifest: &'a str,
        trace: &'a str,
        slice: u32,
    },
    /// `check-audit FILE`.
    CheckAudit {
        file: &'a str,
    },
    /// `demo N`.
    Demo {
        count: u32,
    },
}

/// What the words ask for, if they are of a form.
pub fn parse(words: &[String]) -> Option<Request<'_>>
    ensures some { IfSome result (λ request. Asks (texts words.now) (request_of request)) }
    ensures none { IfNone result (¬ IsForm (texts words.now)) }
{
    match words {
        [form, one] => parse_two(form.as_str(), one.as_str()),
        [form, manifest, trace, slice] => {
            parse_four(
                form.as_str(),
                manifest.as_str(),
                trace.as_str(),
                slice.as_str(),
            )
        }
        _ => None,
    }
}

// The request of two words.
fn parse_two<'a>(form: &str, one: &'a str) -> Option<Request<'a>>
    ensures some { IfSome result (λ request. Asks (form.now ∷ one.now ∷ []) (request_of request)) }
    ensures none { IfNone result (¬ IsForm (form.now ∷ one.now ∷ [])) }
{
    if form == "check" {
        return Some(Request::Check { manifest: one });
    }
    if form == "check-lib" {
        return Some(Request::CheckLib { file: one });
    }
    if form == "tidy" {
        return Some(Request::Tidy { file: one });
    }
    if form == "render" {
        return Some(Request::Render { manifest: one });
    }
    if form == "check-audit" {
        return Some(Request::CheckAudit { file: one });
    }
    if form != "demo" {
        return None;
    }
    let Some(count) = read_count(one, DEMO_LIMIT) else {
        return None;
    };
    Some(Request::Demo { count })
}

// The request of four words.
fn parse_four<'a>(form: &str, manifest: &'a str, trace: &'a str, word: &str) -> Option<Request<'a>>
    ensures some { IfSome result (λ request.
        Asks (form.now ∷ manifest.now ∷ trace.now ∷ word.now ∷ []) (request_of request)) }
    ensures none { IfNone result (¬ IsForm (form.now ∷ manifest.now ∷ trace.now ∷ word.now ∷ [])) }
{
    let Some(slice) = read_count(word, SLICE_LIMIT) else {
        return None;
    };
    if form == "replay" {
        return Some(Request::Replay {
            manifest,
            trace,
            slice,
        });
    }
    if form == "audit" {
        return Some(Request::Audit {
            manifest,
            trace,
            slice,
        });
    }
    None
}

/// The number from 1 to a limit that the word is, in decimal digits without a leading zero.
#[tactic(auto, using(crate::proofs::Counting::count_of))]
pub fn read_count(word: &str, limit: u32) -> Option<u32>
    ensures some { IfSome result (IsCount limit word.now) }
    ensures none { IfNone result ((number : ℕ) → ¬ IsCount limit word.now number) }
{
    let Ok(number) = word.parse::<u32>() else {
        return None;
    };
    if number == 0 {
        return None;
    }
    if number > limit {
        return None;
    }
    if !is_spelled(word, number) {
        return None;
    }
    Some(number)
}

// Whether the word is the decimal digits of a number.
fn is_spelled(word: &str, number: u32) -> bool
    ensures { result ≡ bytes_eq word.now (decimal number) }
{
    let mut buffer = Buffer::new();
    buffer.format(number) == word
}
