//! Files, a sink and lines of bytes as traits: what a call gave or appended, and counts of faults.
#![tactic(auto)]

mod calls;
mod cuts;
mod files;
mod laws;
mod lines;
mod mem_files;
mod mem_lines;
mod mem_sink;
mod real;
mod real_lines;
mod sink;
mod writing;

pub use files::{Files, ReadFail};
pub use laws::lines_of_bytes;
pub use lines::Lines;
pub use mem_files::MemFiles;
pub use mem_lines::MemLines;
pub use mem_sink::MemSink;
pub use real::{RealFiles, RealSink};
pub use real_lines::RealLines;
pub use sink::{Sink, WriteFail};
pub use writing::write_whole;
