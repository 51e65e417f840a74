//! What the words of the command line ask for.
ghost use Rattle.std.specs.Prelude.{◌≤◌, ◌∷◌, [], IfSome, IfNone};
ghost use Rattle.run_steps.specs.Page.{texts};
ghost use Rattle.live_lines.specs.Outcome.{AsksPage, IsLiveForm};

use run_steps::{SLICE_LIMIT, read_count};

/// The manifest of a page, and the units of a pick.
#[derive(Clone, Copy)]
pub struct Asked<'a> {
    pub manifest: &'a str,
    pub slice: u32,
}

/// What the words ask for, if they are of the form.
pub fn parse(words: &[String]) -> Option<Asked<'_>>
    ensures some { IfSome result (λ asked. AsksPage (texts words.now) asked.manifest.now) }
    ensures slice { IfSome result (λ asked. 1 ≤ asked.slice) }
    ensures none { IfNone result (¬ IsLiveForm (texts words.now)) }
{
    match words {
        [name, word] => parse_two(name.as_str(), word.as_str()),
        _ => None,
    }
}

// What two words ask for.
fn parse_two<'a>(name: &'a str, word: &str) -> Option<Asked<'a>>
    ensures some { IfSome result (λ asked. AsksPage (name.now ∷ word.now ∷ []) asked.manifest.now) }
    ensures slice { IfSome result (λ asked. 1 ≤ asked.slice) }
    ensures none { IfNone result (¬ IsLiveForm (name.now ∷ word.now ∷ [])) }
{
    let Some(slice) = read_count(word, SLICE_LIMIT) else {
        return None;
    };
    Some(Asked {
        manifest: name,
        slice,
    })
}
