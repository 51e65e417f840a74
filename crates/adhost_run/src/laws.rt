//! What the definition of an answer means: the functions do nothing, and their contracts are the laws.
ghost use Rattle.std.specs.Prelude.{◌≡◌, ℕ, List, true};
ghost use Rattle.host_io.specs.Files.{FileMap};
ghost use Rattle.run_steps.specs.declared.ending.Status.{Status};
ghost use Rattle.run_steps.specs.Request.{Request};
ghost use Rattle.run_steps.specs.Steps.{IsAnswered};
ghost use Rattle.run_steps.specs.Reading.{HasFilesFor, HasFiles};
ghost use Rattle.adhost_run.specs.Demo.{DemoAnswer};
ghost use Rattle.adhost_run.specs.Answer.{Answer, RequestAnswer};
ghost use Rattle.adhost_run.specs.Ends.{is_answer};

use life_laws::rounds;
use script_check::one_verdict;
use slot_check::one_slot;
use style_text::form_of_style;

/// Words have at most one answer over the files: one status, and the same bytes.
pub fn one_answer()
    ensures { (words : List (List ℕ)) (files : FileMap) (s t : Status) (b c : List ℕ) →
        Answer words files s b → Answer words files t c → (s ≡ t) × (b ≡ c) }
{
    reach_cert::one_answer();
}

/// Words have an answer over files that have each file to which the work comes (`IsAnswered`: it cannot be that
/// nothing is one), whatever the bytes of the files. Words of no form need no file, and `demo` none either: the
/// counters of its slots break no rule. The status of an answer is none of a fault, and not that of want of memory.
pub fn some_answer()
    ensures words { (words : List (List ℕ)) (files : FileMap) → HasFiles words files → IsAnswered (Answer words files) }
    ensures request { (files : FileMap) (request : Request) → HasFilesFor files request
        → IsAnswered (RequestAnswer files request) }
    ensures status { (words : List (List ℕ)) (files : FileMap) (s : Status) (bytes : List ℕ)
        → Answer words files s bytes → is_answer s ≡ true }
    ensures demo { (count : ℕ) → (s : Status) × (bytes : List ℕ) × DemoAnswer count s bytes }
{
    one_slot();
    one_verdict();
    rounds();
    form_of_style();
}
