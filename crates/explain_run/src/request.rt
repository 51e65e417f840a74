//! What the words of the command line ask for.
ghost use Rattle.std.specs.Prelude.{◌≡◌, ◌∷◌, [], IfSome, IfNone};
ghost use Rattle.run_steps.specs.Page.{texts};
ghost use Rattle.explain_run.specs.Request.{request_of, Asks, IsForm, is_script_name};

/// What is to be explained.
#[derive(Clone, Copy)]
pub enum Request<'a> {
    /// `FILE.js`: a library.
    Library {
        file: &'a str,
    },
    /// `MANIFEST`, or `MANIFEST TRACE`: a page, and a trace for it.
    Page {
        manifest: &'a str,
        trace: Option<&'a str>,
    },
}

/// What the words ask for, if they are of a form.
pub fn parse(words: &[String]) -> Option<Request<'_>>
    ensures some { IfSome result (λ request. Asks (texts words.now) (request_of request)) }
    ensures none { IfNone result (¬ IsForm (texts words.now)) }
{
    match words {
        [one] => Some(parse_one(one.as_str())),
        [manifest, trace] => Some(parse_two(manifest.as_str(), trace.as_str())),
        _ => None,
    }
}

// The request of one word.
fn parse_one(one: &str) -> Request<'_>
    ensures { Asks (one.now ∷ []) (request_of result) }
{
    if is_script_name(one) {
        return Request::Library { file: one };
    }
    Request::Page {
        manifest: one,
        trace: None,
    }
}

// The request of two words.
fn parse_two<'a>(manifest: &'a str, trace: &'a str) -> Request<'a>
    ensures { Asks (manifest.now ∷ trace.now ∷ []) (request_of result) }
{
    Request::Page {
        manifest,
        trace: Some(trace),
    }
}

// Whether a name ends in `.js`.
#[tactic(auto, unfolding(crate::specs::Request::is_script_name))]
fn is_script_name(name: &str) -> bool
    ensures { result ≡ is_script_name name.now }
{
    name.as_bytes().ends_with(b".js")
}
