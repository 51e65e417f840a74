//! The top call.
ghost use Rattle.std.specs.Prelude.{◌≡◌, ◌↔◌, false, true, None, IsTrue, IfSome, IsSomeAnd};
ghost use Rattle.run_steps.specs.Page.{texts};
ghost use Rattle.run_steps.specs.Request.{IsForm};
ghost use Rattle.adhost_run.specs.Answer.{Answer, Wrote, WrotePart};
ghost use Rattle.run_steps.specs.Reading.{ReadsFiles, HasFiles};
ghost use Rattle.adhost_run.specs.Stage.{Leaves};
ghost use Rattle.adhost_run.specs.Ends.{is_answer, writes, is_whole, Completes, Fits, WritesSink, AsksAudit, IsConfinedText, IsRunNumber};

use crate::reports::report_on;
use crate::writing::write_report;
use host_io::{Files, Sink};
use page_play::Host;
use run_steps::{Status, parse, status_of};
use std::alloc::Global;
use std::mem;

/// Does what the words ask for, over the files, and writes the report to the sink. What a run
/// answers is `Answer`, which is one (`one_answer`), and is there (`some_answer`).
pub fn run<F: Files, S: Sink>(
    alloc: Global,
    words: &[String],
    files: &mut F,
    sink: &mut S,
    stage: &mut Option<Host>,
) -> Status
    // The status is that of the answer, but for a fault and want of memory, and just the answer's
    // bytes are appended.
    ensures answer { IsTrue (is_answer result) → IfSome (F.told files.old) (λ m.
        Wrote (Answer (texts words.now) m result) (S.held sink.old) (S.held sink.new)) }
    ensures usage { (result ≡ Status.Usage) ↔ (¬ IsForm (texts words.now)) }

    // Over calm files that have each file to which the work comes there is an answer, and the run
    // ends with it, but for want of memory, and for a sink without room.
    ensures complete { IfSome (F.told files.old) (λ m. F.calm files.old → HasFiles (texts words.now) m →
        Completes (Answer (texts words.now) m) (S.takes sink.old) result) }

    // A fault has its cause in the files or in the sink.
    ensures reads { ReadsFiles F.told F.calm F.faults files.old files.new (result ≡ Status.ReadFault)
        (IsSomeAnd (F.told files.old) (HasFiles (texts words.now))) }
    ensures sink { WritesSink S.faults sink.old sink.new (result ≡ Status.WriteFault)
        (IsSomeAnd (F.told files.old) (λ m. Fits (texts words.now) m (S.takes sink.old))) }

    // Where writing fails a first part of a report is appended; where nothing may be, nothing is.
    ensures part { result ≡ Status.WriteFault → IfSome (F.told files.old) (λ m.
        WrotePart (Answer (texts words.now) m) (S.takes sink.old) (S.held sink.old) (S.held sink.new)) }
    ensures still { writes result ≡ false → sink.new ≡ sink.old }

    // The certificate that `audit` writes is confined.
    ensures confined { AsksAudit (texts words.now) → is_whole result ≡ true
        → Wrote IsConfinedText (S.held sink.old) (S.held sink.new) }

    // The host of a page that ran is left in the stage, with all that was done; otherwise none is.
    ensures left { writes result ≡ true → IfSome (F.told files.old) (λ m. Leaves (texts words.now) m stage.new) }
    ensures none { writes result ≡ false → stage.new ≡ None }
{
    *stage = None;
    let Some(request) = parse(words) else {
        return Status::Usage;
    };
    match report_on(alloc, &request, files) {
        Ok(report) => {
            let status = write_report(sink, &report);
            *stage = report.host;
            status
        }
        Err(stop) => status_of(stop),
    }
}

/// Does what the words ask for, as `run` does, and gives the number of the status, for a program that ends
/// with it: the host is left to the system, and not taken apart.
pub fn exit_number<F: Files, S: Sink>(
    alloc: Global,
    words: &[String],
    files: &mut F,
    sink: &mut S,
) -> u8
    ensures { IsRunNumber F.told F.calm F.faults S.held S.takes S.faults
        (texts words.now) files.old files.new sink.old sink.new result }
{
    let mut stage = None;
    let status = run(alloc, words, files, sink, &mut stage);
    mem::forget(stage);
    status.number()
}
