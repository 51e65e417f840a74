//! Command lines over files and a sink in memory, some of whose reads and writes fail. A case is a
//! JSON object (crate `part_cases`):
//!
//! - `words` and `files`, the text of each by its name; a file that is not there is missing
//! - `fail_reads` and `fail_writes`, where there are any: the numbers of the calls that fail, from 1
//! - `room` and `per_call`, where there are limits: the bytes that the sink takes, and those of a call
//! - `status` and `out`: what is wanted; or in place of `out`, `lines`, a list of objects: of each line
//!   that is written some members alone are wanted (module `lines`)
//! - `journal`, where the case says: the picks that the host is to have kept that is left (module
//!   `journals`)
use crate::journals::{journal_of, wanted_journal};
use crate::lines::has_lines;
use adhost_run::{Host, run};
use host_io::{MemFiles, MemSink};
use part_cases::{bytes_of, list_at};
use serde_json::Value;
use std::alloc::Global;

// The bytes that a sink may take in all, where a case does not say.
const ROOM: u64 = 1_000_000;

// How a run ended: its status, what the sink holds, and the picks that the host kept which is left,
// where the case says any.
#[derive(Drop)]
struct Ending {
    status: u8,
    out: Vec<u8>,
    journal: String,
}

/// Whether the command line of a case ends as is wanted.
pub fn ends_as_wanted(alloc: Global, case: &Value) -> Option<bool> {
    let ending = ending_of(alloc, case)?;
    let is_status = case.get("status")?.as_u64()? == ending.status as u64;
    let is_journal = ending.journal == wanted_journal(alloc, case)?;
    Some(is_out(alloc, &ending.out, case)? && is_status && is_journal)
}

// Whether what was written is what a case says.
fn is_out(alloc: Global, out: &[u8], case: &Value) -> Option<bool> {
    match list_at(case, "lines") {
        Some(lines) => has_lines(alloc, str::from_utf8(out).ok()?, lines),
        None => Some(out == bytes_of(alloc, case.get("out")?)?.as_slice()),
    }
}

// How the command line of a case ends.
fn ending_of(alloc: Global, case: &Value) -> Option<Ending> {
    let words = words_of(alloc, case)?;
    let mut files = mem_files(alloc, case)?;
    let mut sink = sink_of(alloc, case)?;
    let mut stage = None;
    let status = status_of(alloc, &words, &mut files, &mut sink, &mut stage);
    let journal = journal_left(alloc, case, &stage)?;
    Some(Ending {
        status,
        out: sink.held().to_vec(alloc).ok()?,
        journal,
    })
}

// The number of the status of a run. It has no clause, so that nobody has to look through those of `run`.
fn status_of(
    alloc: Global,
    words: &[String],
    files: &mut MemFiles,
    sink: &mut MemSink,
    stage: &mut Option<Host>,
) -> u8 {
    run(alloc, words, files, sink, stage).number()
}

// The picks that the host kept which is left, where the case says any.
fn journal_left(alloc: Global, case: &Value, stage: &Option<Host>) -> Option<String> {
    match stage {
        Some(host) if case.get("journal").is_some() => journal_of(alloc, host),
        _ => Some(String::new(alloc)),
    }
}

fn words_of(alloc: Global, case: &Value) -> Option<Vec<String>> {
    let mut words = Vec::new(alloc);
    for word in list_at(case, "words")? {
        words
            .push(String::from_str(alloc, word.as_str()?).ok()?)
            .ok()?;
    }
    Some(words)
}

/// The files of a case, some of whose reads fail.
pub fn mem_files(alloc: Global, case: &Value) -> Option<MemFiles> {
    Some(MemFiles {
        entries: files_of(alloc, case)?,
        fail: calls_at(alloc, case, "fail_reads")?,
        calls: 0,
        faults: 0,
    })
}

fn files_of(alloc: Global, case: &Value) -> Option<Vec<(String, Vec<u8>)>> {
    let mut entries = Vec::new(alloc);
    for (name, text) in case.get("files")?.as_object()? {
        entries
            .push((name.clone().ok()?, bytes_of(alloc, text)?))
            .ok()?;
    }
    Some(entries)
}

// The numbers of the calls that fail, where the case lists any.
fn calls_at(alloc: Global, case: &Value, key: &str) -> Option<Vec<u32>> {
    let mut calls = Vec::new(alloc);
    let Some(list) = list_at(case, key) else {
        return Some(calls);
    };
    for call in list {
        calls.push(u32::try_from(call.as_u64()?).ok()?).ok()?;
    }
    Some(calls)
}

fn sink_of(alloc: Global, case: &Value) -> Option<MemSink> {
    let room = limit_at(case, "room")?;
    let per_call = limit_at(case, "per_call")?;
    MemSink::new(alloc, room, per_call, calls_at(alloc, case, "fail_writes")?).ok()
}

// A limit of the sink, where the case has it.
fn limit_at(case: &Value, key: &str) -> Option<usize> {
    let limit = case.get(key).and_then(Value::as_u64).unwrap_or(ROOM);
    usize::try_from(limit).ok()
}
