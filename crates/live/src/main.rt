//! The program: the words of the command line, the machine's files, the standard input and the standard
//! output, handed to `live`.
#![tactic(auto)]

use host_io::{RealFiles, RealLines, RealSink};
use live_lines::{Status, live};
use std::env;
use std::io::{BufReader, ErrorKind};
use std::process::ExitCode;

fn main(rt: HostRuntime) -> ExitCode {
    let all = match env::args(&rt) {
        Ok(all) => all,
        Err(e) if e.kind() == ErrorKind::OutOfMemory => {
            return ExitCode::from(Status::Memory.number());
        }
        // A word that is not UTF-8 is of no form.
        Err(_) => return ExitCode::from(Status::Usage.number()),
    };
    let mut words = Vec::new(rt.alloc());
    for word in all.skip(1) {
        if words.push(word).is_err() {
            return ExitCode::from(Status::Memory.number());
        }
    }
    // It fails for want of memory alone.
    let Ok(reader) = BufReader::new(rt.alloc(), rt.reader()) else {
        return ExitCode::from(Status::Memory.number());
    };
    let mut files = RealFiles { rt: &rt, faults: 0 };
    let mut lines = RealLines { reader, faults: 0 };
    let mut sink = RealSink { rt: &rt, faults: 0 };
    let status = live(rt.alloc(), &words, &mut files, &mut lines, &mut sink);
    ExitCode::from(status.number())
}
