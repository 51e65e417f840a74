//! Files of the machine.
use host_io::{Files, RealFiles};

/// Whether a file of the machine is read, and one that is missing is a fault that is counted.
pub fn are_real_files_read(rt: &HostRuntime) -> bool {
    let mut files = RealFiles { rt, faults: 0 };
    let there = files.read(rt.alloc(), "words.jsonl", 9).is_ok();
    let missing = files.read(rt.alloc(), "none.jsonl", 9).is_err();
    there && missing && files.faults == 1
}
