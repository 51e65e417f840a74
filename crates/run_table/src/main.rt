//! Writes what comes of the cases in the files of data/, which the gate compares with the file `stdout`:
//! whether command lines and calls of hosts, of frames and of tasks end as is wanted (crate `run_cases`),
//! and what texts and calls of single parts give (crate `part_cases`).
#![tactic(auto)]

mod real_files;

use anyhow::{Result, bail};
use part_cases::{Question, answers, verdicts};
use real_files::are_real_files_read;
use run_cases::{Answer, ends_as_answered, gives_pushed_frame, unwinds_to_the_end};
use std::fs;

// Command lines and calls of hosts.
const RUNS: [&str; 13] = [
    "words.jsonl",
    "libraries.jsonl",
    "tidied.jsonl",
    "pages.jsonl",
    "cuts.jsonl",
    "faults.jsonl",
    "page_runs.jsonl",
    "gadgets.jsonl",
    "examples.jsonl",
    "channels.jsonl",
    "swaps.jsonl",
    "certificates.jsonl",
    "picks.jsonl",
];

// Texts, and calls of single parts.
const PARTS: [(&str, Question); 8] = [
    ("tokens.jsonl", Question::Tokens),
    ("parse.jsonl", Question::Parse),
    ("markup.jsonl", Question::Markup),
    ("styles.jsonl", Question::Style),
    ("queries.jsonl", Question::Query),
    ("manifests.jsonl", Question::Manifest),
    ("traces.jsonl", Question::Trace),
    ("calls.jsonl", Question::Call),
];

fn main(rt: HostRuntime) -> Result<()> {
    for file in RUNS.iter() {
        let file = *file;
        let cases = fs::read_to_string(&rt, file)?;
        let Some(answers) = run_cases::answers(rt.alloc(), &cases) else {
            bail!("{file} has a line that is no case");
        };
        print!(rt; "## {file}\n{answers}")?;
    }
    let are_read = are_real_files_read(&rt);
    println!(rt; "## files of the machine are read: {are_read}")?;
    let alloc = rt.alloc();
    let pushed = matches!(gives_pushed_frame(alloc), Ok(true));
    let over = unwinds_to_the_end(alloc);
    let resumed = matches!(ends_as_answered(alloc, Answer::Undefined), Ok(true));
    let raised = matches!(ends_as_answered(alloc, Answer::Throw), Ok(true));
    println!(rt; "## a pushed frame is taken out: {pushed}")?;
    println!(rt; "## a return unwinds no frames: {over}")?;
    println!(rt; "## a call whose native gives undefined ends by it: {resumed}")?;
    println!(rt; "## a call whose native throws 1 ends by that throw: {raised}")?;
    for part in PARTS.iter() {
        let (file, question) = *part;
        let cases = fs::read_to_string(&rt, file)?;
        let Some(answers) = answers(alloc, question, &cases) else {
            bail!("{file} has a line that is no case");
        };
        print!(rt; "## {file}\n{answers}")?;
    }
    let texts = fs::read_to_string(&rt, "judged.jsonl")?;
    let Some(verdicts) = verdicts(alloc, &texts) else {
        bail!("judged.jsonl has a line that is no case");
    };
    print!(rt; "# certificates\n{verdicts}")?;
    Ok(())
}
