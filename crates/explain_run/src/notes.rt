//! What is told where no rule is judged.
use crate::reading::Why;
use crate::refusals::push_number;
use code_units::Memory;
use json_shapes::ShapeFault;
use std::alloc::Global;

// What is told of words of no form.
const USAGE: &str = "usage: explain MANIFEST | explain FILE.js | explain MANIFEST TRACE\n";

// What is wanted of a manifest, behind the number of its good entries.
const MANIFEST_WANTED: &str =
    " break no rule; the fault is in the next one or, if there is none, beside them\nwanted: {\"version\": 1 or 2, \"page\": [entries]} and, if given, \"fuel\": 1 to 1000000, \"libs\": [at most 16 names of files],\n  in version 2 \"channels\": [[\"A_\", \"B_\"], ..]\nan entry: {\"html\": markup without scripts and ids} or {\"widget\": \"NAME_\", \"file\": \"name.html\"}, at most 16, no two of one name\n";

// The same of a trace.
const TRACE_WANTED: &str =
    " break no rule; the fault is in the next one or, if there is none, beside them\nwanted: {\"version\": 1 or 2, \"items\": [items]}\nan item: {\"to\": \"NAME_\", \"event\": \"click\", \"path\": [3, 0]}, maybe with a \"value\": text; {\"advance\": 0 to 60000};\n  in version 2 {\"swap\": \"NAME_\", \"file\": \"name.html\"}; each name is one of a slot of the page\n";

/// The note on words of no form.
pub fn usage_note(alloc: Global) -> Result<Vec<u8>, Memory> {
    Ok(USAGE.as_bytes().to_vec(alloc)?)
}

/// The note on a file with which something is wrong.
pub fn note_on(alloc: Global, file: &str, why: Why) -> Result<Vec<u8>, Memory> {
    let mut out = file.as_bytes().to_vec(alloc)?;
    match why {
        Why::Manifest(fault) => push_manifest(fault, &mut out)?,
        Why::Trace(fault) => push_trace(fault, &mut out)?,
        Why::TooLong(limit) => {
            push(": this file has more than ", &mut out)?;
            push_number(limit, &mut out)?;
            push(" bytes\n", &mut out)?;
        }
        Why::Unread => push(": there is no such file, or it cannot be read\n", &mut out)?,
    }
    Ok(out)
}

fn push(text: &str, out: &mut Vec<u8>) -> Result<(), Memory> {
    Ok(out.extend_from_slice(text.as_bytes())?)
}

// What is wrong with a manifest (docs/TRACES.md, "The manifest").
fn push_manifest(fault: ShapeFault, out: &mut Vec<u8>) -> Result<(), Memory> {
    match fault {
        ShapeFault::BadShape { item } => {
            push(": this is no manifest: of \"page\" the first ", out)?;
            push_number(item, out)?;
            push(MANIFEST_WANTED, out)
        }
        _ => push(": this is no JSON text, so it is no manifest\n", out),
    }
}

// What is wrong with a trace (docs/TRACES.md, "The trace").
fn push_trace(fault: ShapeFault, out: &mut Vec<u8>) -> Result<(), Memory> {
    match fault {
        ShapeFault::BadShape { item } => {
            push(": this is no trace: of \"items\" the first ", out)?;
            push_number(item, out)?;
            push(TRACE_WANTED, out)
        }
        ShapeFault::TooMany { .. } => push(": \"items\" has over 4096 entries\n", out),
        _ => push(": this is no JSON text, so it is no trace\n", out),
    }
}
