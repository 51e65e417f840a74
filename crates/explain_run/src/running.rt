//! The top call.
ghost use Rattle.std.specs.Prelude.{◌≡◌, IsTrue, IfSome, IfOk};
ghost use Rattle.host_io.specs.Files.{Rose};
ghost use Rattle.run_steps.specs.Page.{texts};
ghost use Rattle.explain_run.specs.Request.{IsForm};
ghost use Rattle.explain_run.specs.Steps.{status_of, trace_status};
ghost use Rattle.explain_run.specs.Answer.{ending, is_answer, Answer, AnswerOrFault, IsTold, Wrote};

use crate::ending::Status;
use crate::notes::{note_on, usage_note};
use crate::pages::tell;
use crate::reading::{NotTold, Why};
use crate::refusals::Told;
use crate::request::parse;
use code_units::Memory;
use host_io::{Files, Sink, write_whole};
use json_shapes::ShapeFault;
use std::alloc::Global;

/// Explains what the words ask for, over the files, to the sink.
pub fn run<F: Files, S: Sink>(
    alloc: Global,
    words: &[String],
    files: &mut F,
    sink: &mut S,
) -> Status
    // The status is that of the answer, but for a fault and want of memory, and just the answer's
    // bytes are appended.
    ensures answer { IsTrue (is_answer result) → IfSome (F.told files.old) (λ m.
        Wrote (Answer (texts words.now) m result) (S.held sink.old) (S.held sink.new)) }
    ensures usage { result ≡ Status.Usage → ¬ IsForm (texts words.now) }

    // A fault has its cause in the files or in the sink.
    ensures told { F.told files.new ≡ F.told files.old }
    ensures read { result ≡ Status.ReadFault → Rose (F.faults files.old) (F.faults files.new) }
    ensures write { result ≡ Status.WriteFault → Rose (S.faults sink.old) (S.faults sink.new) }
    ensures still { result ≡ Status.Memory → sink.new ≡ sink.old }
{
    match explained(alloc, words, files) {
        Ok(text) => {
            match write_whole(sink, &text.bytes) {
                Ok(()) => text.status,
                Err(_) => Status::WriteFault,
            }
        }
        Err(Memory) => Status::Memory,
    }
}

/// The same, with the number of the status alone. It has no clauses.
pub fn exit_number<F: Files, S: Sink>(
    alloc: Global,
    words: &[String],
    files: &mut F,
    sink: &mut S,
) -> u8 {
    run(alloc, words, files, sink).number()
}

// How the run ends if it is written whole, and what is written.
#[derive(Drop)]
struct Outcome {
    status: Status,
    bytes: Vec<u8>,
}

// What is explained.
fn explained<F: Files>(alloc: Global, words: &[String], files: &mut F) -> Result<Outcome, Memory>
    ensures answer { IfOk result
        (λ x. IfSome (F.told files.old) (λ m. AnswerOrFault (texts words.now) m x.status x.bytes.items)) }
    ensures usage { IfOk result (λ x. x.status ≡ Status.Usage → ¬ IsForm (texts words.now)) }
    ensures told { F.told files.new ≡ F.told files.old }
    ensures read { IfOk result (λ x. x.status ≡ Status.ReadFault → Rose (F.faults files.old) (F.faults files.new)) }
    ensures kept { IfOk result (λ x. IsTold x.status) }
{
    let Some(request) = parse(words) else {
        let bytes = usage_note(alloc)?;
        let status = Status::Usage;
        return Ok(Outcome { status, bytes });
    };
    match tell(alloc, &request, files) {
        Ok(told) => Ok(told_outcome(told)),
        Err(NotTold::Bad { file, why }) => {
            let bytes = note_on(alloc, file.as_str(), why)?;
            let status = status_of(why);
            Ok(Outcome { status, bytes })
        }
        Err(NotTold::Memory) => Err(Memory),
    }
}

// The outcome where rules are judged.
fn told_outcome(told: Told) -> Outcome
    ensures status { result.status ≡ ending told.refused }
    ensures bytes { result.bytes.items ≡ told.bytes.items }
{
    let status = ending(told.refused);
    Outcome {
        status,
        bytes: told.bytes,
    }
}

// The status where rules are judged.
fn ending(refused: bool) -> Status
    ensures { result ≡ ending refused }
{
    if refused { Status::Refused } else { Status::Ok }
}

// The status that something wrong with a file leads to.
fn status_of(why: Why) -> Status
    ensures { result ≡ status_of why }
{
    match why {
        Why::Manifest(_) => Status::BadManifest,
        Why::Trace(fault) => trace_status(fault),
        Why::TooLong(_) => Status::TooLarge,
        Why::Unread => Status::ReadFault,
    }
}

// The same of a trace.
fn trace_status(fault: ShapeFault) -> Status
    ensures { result ≡ trace_status fault }
{
    match fault {
        ShapeFault::TooMany { .. } => Status::TooLarge,
        ShapeFault::NotJson | ShapeFault::BadShape { .. } | ShapeFault::Memory => Status::BadTrace,
    }
}
