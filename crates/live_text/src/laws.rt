//! What holds of requests and answers.
ghost use Rattle.std.specs.Prelude.{◌≡◌, ◌++◌, ℕ, List, codes};
ghost use Rattle.trace_text.specs.Report.{line_text};
ghost use Rattle.live_text.specs.Answer.{object_of};
ghost use Rattle.live_text.specs.Request.{ReadsRequest, IsRequestFault, asked};
ghost use Rattle.live_text.specs.declared.request.RequestFault.TheVariants as request_fault;

use crate::request::{Request, RequestFault};
use trace_text::Line;

/// A line asks for one thing at most, or is refused for one reason, and not both.
pub fn one_request()
    ensures request { (bytes : List ℕ) (names : List (List ℕ)) (request other : Request) →
        ReadsRequest bytes names request → ReadsRequest bytes names other → asked request ≡ asked other }
    ensures fault { (bytes : List ℕ) (names : List (List ℕ)) (fault other : RequestFault) →
        IsRequestFault bytes names fault → IsRequestFault bytes names other → ¬ (fault ≡ request_fault.Memory) →
        ¬ (other ≡ request_fault.Memory) → fault ≡ other }
    ensures refused { (bytes : List ℕ) (names : List (List ℕ)) (request : Request) (fault : RequestFault) →
        ReadsRequest bytes names request → IsRequestFault bytes names fault → fault ≡ request_fault.Memory }
{}

/// Each line of a report ends with a line feed, and without it stands in an entry.
pub fn object_of_line()
    ensures { (line : Line) → line_text line ≡ object_of line ++ codes "\n" }
{}
