//! What a run of the program reads, step by step: what the words ask for, a manifest with the files that it
//! names, a trace with the files of its swaps, and a certificate. Each step says what it gives, with which
//! status the run ends where it gives nothing, and which files it needs.
#![tactic(auto)]

mod ending;
mod laws;
mod reading;
mod request;
mod steps;

pub use ending::{Status, status_of};
pub use laws::some_step;
pub use reading::{CERT_LIMIT, FILE_LIMIT, NoReport, read_file};
pub use request::{Request, SLICE_LIMIT, parse, read_count};
pub use steps::{cert_in, files_named, files_of, items_of, manifest_in, slot_names, swaps_of};
