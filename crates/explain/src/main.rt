//! The program: the words of the command line, the machine's files and the standard output, handed
//! to `run`, by the call that gives the number of its status alone.
#![tactic(auto)]

use explain_run::{Status, exit_number};
use host_io::{RealFiles, RealSink};
use std::env;
use std::io::ErrorKind;
use std::process::ExitCode;

fn main(rt: HostRuntime) -> ExitCode {
    let all = match env::args(&rt) {
        Ok(all) => all,
        Err(e) if e.kind() == ErrorKind::OutOfMemory => {
            return ExitCode::from(Status::Memory.number());
        }
        // A word that is not UTF-8 is of no form.
        Err(_) => return ExitCode::from(Status::Usage.number()),
    };
    let mut words = Vec::new(rt.alloc());
    for word in all.skip(1) {
        if words.push(word).is_err() {
            return ExitCode::from(Status::Memory.number());
        }
    }
    let mut files = RealFiles { rt: &rt, faults: 0 };
    let mut sink = RealSink { rt: &rt, faults: 0 };
    ExitCode::from(exit_number(rt.alloc(), &words, &mut files, &mut sink))
}
