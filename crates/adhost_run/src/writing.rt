//! Writing a report whole. It takes no memory.
ghost use Rattle.std.specs.Prelude.{◌≡◌, ◌≤◌, ◌<◌, length};
ghost use Rattle.adhost_run.specs.Ends.{WritesSink, Written};

use crate::reports::Report;
use host_io::{Sink, write_whole};
use run_steps::Status;

/// Appends a report, and says how the run ends.
pub fn write_report<S: Sink>(sink: &mut S, report: &Report) -> Status
    ensures written { Written report.now.refused report.now.bytes.items (S.takes sink.old)
        (S.held sink.old) (S.held sink.new) result }
    ensures sink { WritesSink S.faults sink.old sink.new (result ≡ Status.WriteFault)
        (length report.now.bytes.items ≤ S.takes sink.old) }
{
    match write_whole(sink, &report.bytes) {
        Ok(()) if report.refused => Status::Refused,
        Ok(()) => Status::Ok,
        Err(_) => Status::WriteFault,
    }
}
